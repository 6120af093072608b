//! What an action leaves in a register.

ghost use Rattle.std.specs.Prelude.{◌≡◌, OnOk};
ghost use Rattle.cf_core.specs.FromTypes.{Tables as TablesOf};
ghost use Rattle.cf_core.specs.View.{change_of};
ghost use Rattle.cf_lower.specs.Kept as definition;
ghost use Rattle.cf_lower_held.specs.Scenes.{action_in, locals_in};
ghost use Rattle.cf_lowerable_places.specs.Contents as spec;
ghost use Rattle.cf_lowerable_types.specs.Kinds.{has_kind};
ghost use Rattle.cf_lowerable_places.specs.Contents.{known, knowing, restored};

use crate::content::{Content, kinds_in, kinds_of_scalar};
use crate::contents::Contents;
use cf_base::{Arith, Kind, Memory};
use cf_core::{Change, PointerOperator};
use cf_lower_held::{Scene, kept_by};
use cf_lower_types::{Tables, place_scalar, result_sort, sort_of};
use cf_lowerable_types::{Kinds, all_kinds, kinds_fitting, kinds_within};
use cf_plain::Action;

/// What a register holds of this function.
pub fn held(x: &Scene<'_>, cs: &Contents, register: u32) -> Content
    ensures { known x.now.tables.now result ≡ knowing x.now cs.now register }
{
    let _tables = x.tables;
    cs.get(register)
}

/// The types of the integer that is read at a place, if it is one.
fn read_kinds(tables: &Tables<'_>, place: &Content) -> Kinds
    ensures { restored (definition.read_kept (known tables.now place.now)) (has_kind result) ≡ definition.read_kept (known tables.now place.now) }
{
    match place {
        Content::Place(ty) => kinds_of_scalar(&place_scalar(tables, *ty)),
        Content::Nothing | Content::Number(_) | Content::Code(_) | Content::Argument(_, _) => {
            all_kinds()
        }
    }
}

/// Whether an operator compares (5.9, 5.10).
fn compares(op: Arith) -> bool
    ensures { result ≡ spec.compares op }
{
    match op {
        Arith::Less
        | Arith::Greater
        | Arith::LessEqual
        | Arith::GreaterEqual
        | Arith::Equal
        | Arith::NotEqual => true,
        Arith::Multiply
        | Arith::Divide
        | Arith::Remainder
        | Arith::Add
        | Arith::Subtract
        | Arith::ShiftLeft
        | Arith::ShiftRight
        | Arith::And
        | Arith::Xor
        | Arith::Or => false,
    }
}

/// Those of what an operator gives: a comparison gives 0 or 1.
fn operated_kinds(op: Arith, kind: Kind) -> Kinds
    ensures { restored (definition.result_kept op kind) (has_kind result) ≡ definition.result_kept op kind }
{
    if compares(op) {
        all_kinds()
    } else {
        kinds_within(kind)
    }
}

/// Those of an element's place, which is no integer if the first operand is a pointer.
#[tactic(auto, using(crate::proofs::Giving::pointer_fits))]
fn indexed_kinds(left: &Content, right: &Content) -> Kinds
    ensures { (tables : TablesOf) → restored (definition.pointer_of (known tables left.now) (known tables right.now)) (has_kind result) ≡ definition.pointer_of (known tables left.now) (known tables right.now) }
{
    let _left = *left;
    kinds_in(right)
}

/// Those of what an operator on pointers gives.
#[tactic(auto, using(crate::proofs::Giving::order_fits))]
fn pointed_kinds(op: PointerOperator, left: &Content, right: &Content) -> Kinds
    ensures { (tables : TablesOf) → restored (definition.operated_kept op (known tables left.now) (known tables right.now)) (has_kind result) ≡ definition.operated_kept op (known tables left.now) (known tables right.now) }
{
    match op {
        PointerOperator::Add => indexed_kinds(left, right),
        PointerOperator::Subtract => kinds_in(left),
        PointerOperator::Difference => kinds_within(Kind::Int),
        PointerOperator::Less => all_kinds(),
        PointerOperator::Greater => all_kinds(),
        PointerOperator::LessEqual => all_kinds(),
        PointerOperator::GreaterEqual => all_kinds(),
        PointerOperator::Equal => all_kinds(),
        PointerOperator::NotEqual => all_kinds(),
    }
}

/// Those of a scalar that is changed.
fn changed_kinds(change: Change, value: &Content) -> Kinds
    ensures { (tables : TablesOf) → restored (definition.changed_kept (change_of change) (known tables value.now)) (has_kind result) ≡ definition.changed_kept (change_of change) (known tables value.now) }
{
    match change {
        Change::Arithmetic { to, .. } => kinds_within(to),
        Change::Moved { .. } => kinds_in(value),
    }
}

/// Those of the first element of an array.
#[tactic(auto, using(crate::proofs::Giving::decayed_fits))]
fn decayed_kinds(array: &Content) -> Kinds
    ensures { (tables : TablesOf) → restored (definition.decayed_kept (known tables array.now)) (has_kind result) ≡ definition.decayed_kept (known tables array.now) }
{
    kinds_in(array)
}

/// Those of a constant.
fn constant_kinds(value: i64) -> Kinds
    ensures { restored (definition.constant_kept value) (has_kind result) ≡ definition.constant_kept value }
{
    kinds_fitting(value)
}

/// The types of the integer that an action gives, if it gives one.
#[tactic(auto, using(crate::proofs::Giving::declared_fits))]
fn given_kinds(x: &Scene<'_>, cs: &Contents, a: &Action) -> Kinds
    ensures { restored (definition.kept_by (locals_in x.now) (knowing x.now cs.now) (action_in x.now a.now)) (has_kind result) ≡ definition.kept_by (locals_in x.now) (knowing x.now cs.now) (action_in x.now a.now) }
{
    match a {
        Action::Number { value } => constant_kinds(*value),
        Action::Read { place } => read_kinds(x.tables, &held(x, cs, *place)),
        Action::Dereference { pointer } => kinds_in(&held(x, cs, *pointer)),
        Action::Decay { array } => decayed_kinds(&held(x, cs, *array)),
        Action::Index { left, right } => indexed_kinds(&held(x, cs, *left), &held(x, cs, *right)),
        Action::Convert { ty, .. } => kinds_of_scalar(&sort_of(x.tables, *ty)),
        Action::Operate { op, kind, .. } => operated_kinds(*op, *kind),
        Action::Unary { kind, .. } => kinds_within(*kind),
        Action::Truth { .. } => all_kinds(),
        Action::Not { .. } => all_kinds(),
        Action::PointerOperate { op, left, right } => {
            pointed_kinds(*op, &held(x, cs, *left), &held(x, cs, *right))
        }
        Action::Changed { change, value, .. } => changed_kinds(*change, &held(x, cs, *value)),
        Action::Declare { .. } => all_kinds(),
        Action::Call { ty, .. } => kinds_of_scalar(&result_sort(x.tables, *ty)),
        Action::PointerCall { ty, .. } => kinds_of_scalar(&result_sort(x.tables, *ty)),
        _ => all_kinds(),
    }
}

/// A register holds from now on what an action gives.
pub fn set(x: &Scene<'_>, cs: &mut Contents, register: u32, a: &Action) -> Result<(), Memory>
    ensures { OnOk result (knowing x.now cs.new ≡ definition.keep (knowing x.now cs.old) register (definition.kept_by (locals_in x.now) (knowing x.now cs.old) (action_in x.now a.now))) }
{
    let given = kept_by(x, cs.registers(), a);
    let kinds = given_kinds(x, cs, a);
    cs.keep(register, given, kinds)?;
    Ok(())
}
