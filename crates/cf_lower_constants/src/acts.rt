//! What an action of an initialiser gives.

ghost use Rattle.std.specs.Prelude.{◌≡◌, length, Some, IfOk};
ghost use Rattle.cf_base.specs.declared.kind.Kind.TheVariants as kind;
ghost use Rattle.cf_core.specs.FromTypes.{type_of};
ghost use Rattle.cf_core.specs.Types.{array, integer};
ghost use Rattle.cf_lower.specs.Constants as definition;
ghost use Rattle.cf_lower.specs.Written.{literal_name as literal_name_of};
ghost use Rattle.cf_lower_layout.specs.Sorts.{address, sort_of as sort_of_type};
ghost use Rattle.cf_lower_types.specs.Bare.{classes_of};
ghost use Rattle.cf_plain.specs.Plain as plain;
ghost use Rattle.cf_lower_constants.specs.Sites.{action_at, told, told_all};
ghost use Rattle.cf_lower_constants.specs.declared.known.Fact.TheVariants as facts;

use crate::known::{
    Fact, Known, Target, as_address, converted, inverted, nameless, of_truth, truth,
};
use crate::numbers::{changed_to, number_of, of_number, operated_on};
use crate::places::{decayed, pointer_operated, sum};
use crate::registers::Knowns;
use crate::site::Site;
use cf_base::{Arith, Bytes, Items, Kind, Memory, Name};
use cf_core::UnaryOperator;
use cf_lower_names::literal_name;
use cf_lower_types::sort_of;
use cf_plain::Action;
use cf_types::TyId;

/// The start of the object of this name.
fn start(name: Name, target: Target) -> Known
    ensures { result ≡ record { fact = facts.Place 0; target = target; name = name } }
{
    Known {
        fact: Fact::Place(0),
        target,
        name,
    }
}

/// What an operator gives at what two registers hold (5.6 to 5.13).
fn operated(
    x: &Site<'_>,
    known: &Knowns,
    op: Arith,
    kind: Kind,
    left: u32,
    right: u32,
) -> Result<Known, Memory>
    ensures { IfOk result (λ given. told x.now given ≡ definition.known_by (classes_of x.now.tables.now) x.now.owner.now (told_all x.now known.now) (plain.operate op kind left right)) }
{
    let a = known.get(x.alloc, left)?;
    let b = known.get(x.alloc, right)?;
    let given = operated_on(op, kind, number_of(&a.fact), number_of(&b.fact))?;
    Ok(nameless(x.alloc, of_number(given)))
}

/// What an operator gives at what one register holds (5.3).
fn changed(
    x: &Site<'_>,
    known: &Knowns,
    op: UnaryOperator,
    kind: Kind,
    operand: u32,
) -> Result<Known, Memory>
    ensures { IfOk result (λ given. told x.now given ≡ definition.known_by (classes_of x.now.tables.now) x.now.owner.now (told_all x.now known.now) (plain.unary op kind operand)) }
{
    let a = known.get(x.alloc, operand)?;
    let given = changed_to(op, kind, number_of(&a.fact))?;
    Ok(nameless(x.alloc, of_number(given)))
}

/// Whether what a register holds is neither 0 nor null, where that is known (4.1, 5.3).
pub fn decided(x: &Site<'_>, known: &Knowns, register: u32) -> Result<Option<bool>, Memory>
    ensures { IfOk result (λ given. given ≡ definition.holds_truth (told_all x.now known.now register)) }
{
    let held = known.get(x.alloc, register)?;
    Ok(truth(&held.fact))
}

/// The truth of what a register holds, as a number (5.3).
fn tested(x: &Site<'_>, known: &Knowns, operand: u32) -> Result<Known, Memory>
    ensures { IfOk result (λ given. told x.now given ≡ definition.truth_known (definition.holds_truth (told_all x.now known.now operand))) }
{
    let given = decided(x, known, operand)?;
    Ok(nameless(x.alloc, of_truth(given)))
}

/// The other truth.
fn denied(x: &Site<'_>, known: &Knowns, operand: u32) -> Result<Known, Memory>
    ensures { IfOk result (λ given. told x.now given ≡ definition.truth_known (definition.inverted (definition.holds_truth (told_all x.now known.now operand)))) }
{
    let given = decided(x, known, operand)?;
    Ok(nameless(x.alloc, of_truth(inverted(given))))
}

/// A literal (2.5.4).
fn text(x: &Site<'_>, number: u32, bytes: &Bytes) -> Result<Known, Memory>
    ensures { IfOk result (λ given. told x.now given ≡ definition.at (literal_name_of x.now.owner.now number) 0 (array (integer kind.Char) (length bytes.now))) }
{
    let name = literal_name(x.alloc, x.owner, number)?;
    Ok(start(name, Target::Characters(bytes.len() as u64)))
}

/// A static object.
fn object(x: &Site<'_>, name: &Name, ty: TyId) -> Result<Known, Memory>
    ensures { IfOk result (λ given. told x.now given ≡ definition.at name.now 0 (type_of x.now.tables.now ty)) }
{
    let copy = Items::from_slice(x.alloc, name.as_slice())?;
    Ok(start(copy, Target::Exactly(ty)))
}

/// A function.
fn function(x: &Site<'_>, name: &Name) -> Result<Known, Memory>
    ensures { IfOk result (λ given. told x.now given ≡ definition.a_function name.now) }
{
    let copy = Items::from_slice(x.alloc, name.as_slice())?;
    Ok(Known {
        fact: Fact::Function,
        target: Target::Void,
        name: copy,
    })
}

/// What a register holds, as a value of this type (4).
fn as_type(x: &Site<'_>, known: &Knowns, ty: TyId, operand: u32) -> Result<Known, Memory>
    ensures { IfOk result (λ given. told x.now given ≡ definition.converted_known (classes_of x.now.tables.now) (sort_of_type (type_of x.now.tables.now ty)) (told_all x.now known.now operand)) }
{
    let held = known.get(x.alloc, operand)?;
    let scalar = sort_of(x.tables, ty);
    Ok(converted(&scalar, held))
}

/// The same as the address of an object of this type (5.4).
fn addressed(x: &Site<'_>, known: &Knowns, ty: TyId, operand: u32) -> Result<Known, Memory>
    ensures { IfOk result (λ given. told x.now given ≡ definition.converted_known (classes_of x.now.tables.now) (Some (address (type_of x.now.tables.now ty))) (told_all x.now known.now operand)) }
{
    let held = known.get(x.alloc, operand)?;
    Ok(as_address(Target::Exactly(ty), held))
}

/// What a register holds that is set by an action.
pub fn known_by(x: &Site<'_>, known: &Knowns, a: &Action) -> Result<Known, Memory>
    ensures { IfOk result (λ given. told x.now given ≡ definition.known_by (classes_of x.now.tables.now) x.now.owner.now (told_all x.now known.now) (action_at x.now a.now)) }
{
    match a {
        Action::Number { value } => Ok(nameless(x.alloc, Fact::Number(*value))),
        Action::Text { number, bytes } => text(x, *number, bytes),
        Action::Static { name, ty } => object(x, name, *ty),
        Action::Function { name, .. } => function(x, name),
        Action::Dereference { pointer } => {
            let held = known.get(x.alloc, *pointer)?;
            Ok(held)
        }
        Action::Decay { array } => {
            let held = known.get(x.alloc, *array)?;
            Ok(decayed(x, held))
        }
        Action::Index { left, right } => {
            let a = known.get(x.alloc, *left)?;
            let b = known.get(x.alloc, *right)?;
            let given = sum(x, a, b)?;
            Ok(given)
        }
        Action::Convert { ty, operand } => as_type(x, known, *ty, *operand),
        Action::FromVoid { ty, operand } => addressed(x, known, *ty, *operand),
        Action::Operate {
            op,
            kind,
            left,
            right,
        } => operated(x, known, *op, *kind, *left, *right),
        Action::Unary { op, kind, operand } => changed(x, known, *op, *kind, *operand),
        Action::Truth { operand } => tested(x, known, *operand),
        Action::Not { operand } => denied(x, known, *operand),
        Action::PointerOperate { op, left, right } => {
            let a = known.get(x.alloc, *left)?;
            let b = known.get(x.alloc, *right)?;
            let given = pointer_operated(x, *op, a, b)?;
            Ok(given)
        }
        _ => Ok(nameless(x.alloc, Fact::Nothing)),
    }
}
