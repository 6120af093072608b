//! What an action gives.

ghost use Rattle.std.specs.Prelude.{◌≡◌, ℕ, List, length, slice_get, Some, IfOk};
ghost use Rattle.cf_base.specs.Integers as integers;
ghost use Rattle.cf_base.specs.declared.kind.Kind.TheVariants as kind;
ghost use Rattle.cf_core.specs.FromTypes.{Tables as TablesOf, type_of};
ghost use Rattle.cf_core.specs.Types as types;
ghost use Rattle.cf_core.specs.Types.{Name};
ghost use Rattle.cf_plain.specs.Plain as plain;
ghost use Rattle.cf_plain.specs.Plain.{Register};
ghost use Rattle.cf_plain_kept.specs.Kept as definition;
ghost use Rattle.cf_plain_kept.specs.Kept.{Keeping};
ghost use Rattle.cf_lowerable_ready.specs.Contents.{known};
ghost use Rattle.cf_lowerable_ready.specs.Given as spec;
ghost use Rattle.cf_lowerable_ready.specs.Scenes.{action_in, knowing, locals_in, result_in};

use crate::content::{Content, Place};
use crate::contents::Contents;
use crate::operands::{changed, filled, moved, operated, pointed, tested, unary};
use crate::pointers::{begun, converted, from_void, pointed_call, pointer_operated, stored};
use crate::scene::{Scene, local_type};
use crate::types::{called, decayed, decayed_at, named, read_at};
use cf_base::{Bytes, Memory};
use cf_lower_types::Tables;
use cf_lowerable_types::kinds_fitting;
use cf_plain::Action;
use cf_types::TyId;

/// What a register holds of this function.
pub fn held(x: &Scene<'_>, cs: &Contents, register: u32) -> Content
    ensures { known x.now.tables.now result ≡ knowing x.now cs.now register }
{
    let _tables = x.tables;
    cs.get(register)
}

/// A constant.
#[tactic(auto, using(crate::proofs::ActionLaws::constant_known))]
fn constant(value: i64) -> Content
    ensures { (tables : TablesOf) → known tables result ≡ Some (definition.an_integer (λ k. integers.fits k value)) }
{
    Content::Number(kinds_fitting(value))
}

/// A string literal.
fn literal(text: &Bytes) -> Content
    ensures { (tables : TablesOf) → known tables result ≡ Some (definition.a_place (types.array (types.integer kind.Char) (length text.now))) }
{
    let count = text.len();
    Content::Place(Place::Characters(count as u64))
}

/// What the name of a local gives.
#[tactic(auto, using(crate::proofs::ActionLaws::local_there, crate::proofs::ActionLaws::local_missing))]
fn named_local(x: &Scene<'_>, local: u32) -> Content
    ensures { known x.now.tables.now result ≡ definition.named (slice_get (locals_in x.now) local) }
{
    match local_type(x, local) {
        Some(ty) => named(x.tables, ty),
        None => Content::Unset,
    }
}

/// What is read at a place.
fn read(tables: &Tables<'_>, place: &Content) -> Content
    ensures { known tables.now result ≡ definition.read_kept (known tables.now place.now) }
{
    match place {
        Content::Place(ty) => read_at(tables, ty),
        Content::Unset => Content::Unset,
        Content::NoValue => Content::Unset,
        Content::Number(_) => Content::Unset,
        Content::Member(_) => Content::Unset,
        Content::Object(_, _) => Content::Unset,
    }
}

/// A pointer to the first element of an array.
fn first_element(tables: &Tables<'_>, array: &Content) -> Content
    ensures { known tables.now result ≡ definition.decayed_kept (known tables.now array.now) }
{
    match array {
        Content::Place(ty) => decayed_at(tables, ty),
        Content::Object(_, ty) => decayed(tables, *ty),
        Content::Unset => Content::Unset,
        Content::NoValue => Content::Unset,
        Content::Number(_) => Content::Unset,
        Content::Member(_) => Content::Unset,
    }
}

/// What a call by name gives, on no object and with no place for its result.
fn call_by_name(tables: &Tables<'_>, ty: TyId, object: Option<u32>, into: Option<u32>) -> Content
    ensures { (g : Keeping) (name : Name) (is : List ℕ) → known tables.now result ≡ spec.done_kept g (plain.call name (type_of tables.now ty) object is into) }
{
    match object {
        Some(_) => Content::Unset,
        None => match into {
            Some(_) => Content::Unset,
            None => called(tables, ty),
        },
    }
}

/// The same of a call through what a register holds.
#[tactic(auto, using(crate::proofs::ActionLaws::pointed_at))]
fn call_through(
    tables: &Tables<'_>,
    pointer: &Content,
    ty: TyId,
    object: Option<u32>,
    into: Option<u32>,
) -> Result<Content, Memory>
    ensures { (g : Keeping) (r : Register) (is : List ℕ) → known tables.now pointer.now ≡ g r
        → IfOk result (λ c. known tables.now c ≡ spec.done_kept g (plain.pointer_call object r (type_of tables.now ty) is into)) }
{
    match object {
        Some(_) => Ok(Content::Unset),
        None => match into {
            Some(_) => Ok(Content::Unset),
            None => {
                let made = pointed_call(tables, ty, pointer)?;
                Ok(made)
            }
        },
    }
}

/// What is left of an action on an object, and what a call gives; nothing of another action.
fn done(x: &Scene<'_>, cs: &Contents, a: &Action) -> Result<Content, Memory>
    ensures { IfOk result (λ c. known x.now.tables.now c ≡ spec.done_kept (knowing x.now cs.now) (action_in x.now a.now)) }
{
    match a {
        Action::Store { place, value } => {
            stored(x.tables, &held(x, cs, *place), &held(x, cs, *value))
        }
        Action::First { place, value } => {
            begun(x.tables, &held(x, cs, *place), &held(x, cs, *value))
        }
        Action::Zeros { place } => Ok(filled(&held(x, cs, *place))),
        Action::Characters { place, .. } => Ok(filled(&held(x, cs, *place))),
        Action::Finish { .. } => Ok(Content::NoValue),
        Action::Call {
            ty,
            object,
            result,
            ..
        } => Ok(call_by_name(x.tables, *ty, *object, *result)),
        Action::PointerCall {
            object,
            pointer,
            ty,
            result,
            ..
        } => {
            let content = held(x, cs, *pointer);
            let made = call_through(x.tables, &content, *ty, *object, *result)?;
            Ok(made)
        }
        _ => Ok(Content::Unset),
    }
}

/// What an action gives; nothing where its operands are not what it takes.
pub fn kept_by(x: &Scene<'_>, cs: &Contents, a: &Action) -> Result<Content, Memory>
    ensures { IfOk result (λ c. known x.now.tables.now c ≡ definition.kept_by (locals_in x.now) (result_in x.now) (knowing x.now cs.now) (action_in x.now a.now)) }
{
    match a {
        Action::Number { value } => Ok(constant(*value)),
        Action::Text { bytes, .. } => Ok(literal(bytes)),
        Action::Local { number } => Ok(named_local(x, *number)),
        Action::Static { ty, .. } => Ok(named(x.tables, *ty)),
        Action::Function { ty, .. } => Ok(Content::Place(Place::Of(*ty))),
        Action::Read { place } => Ok(read(x.tables, &held(x, cs, *place))),
        Action::Dereference { pointer } => Ok(pointed(&held(x, cs, *pointer))),
        Action::Decay { array } => Ok(first_element(x.tables, &held(x, cs, *array))),
        Action::Index { left, right } => Ok(moved(&held(x, cs, *left), &held(x, cs, *right))),
        Action::Convert { ty, operand } => converted(x.tables, *ty, &held(x, cs, *operand)),
        Action::FromVoid { ty, operand } => from_void(x.tables, *ty, &held(x, cs, *operand)),
        Action::Operate {
            op,
            kind,
            left,
            right,
        } => Ok(operated(*op, *kind, &held(x, cs, *left), &held(x, cs, *right))),
        Action::Unary { kind, operand, .. } => Ok(unary(*kind, &held(x, cs, *operand))),
        Action::Truth { operand } => Ok(tested(&held(x, cs, *operand))),
        Action::Not { operand } => Ok(tested(&held(x, cs, *operand))),
        Action::PointerOperate { op, left, right } => {
            pointer_operated(x.tables, *op, &held(x, cs, *left), &held(x, cs, *right))
        }
        Action::Changed { change, value, by } => {
            Ok(changed(*change, &held(x, cs, *value), &held(x, cs, *by)))
        }
        Action::Declare { local, ty } => Ok(Content::Object(*local, *ty)),
        _ => {
            let made = done(x, cs, a)?;
            Ok(made)
        }
    }
}
