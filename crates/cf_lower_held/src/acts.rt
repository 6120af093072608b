//! What an action gives.

ghost use Rattle.std.specs.Prelude.{◌≡◌, ◌||◌};
ghost use Rattle.cf_base.specs.Integers as integers;
ghost use Rattle.cf_base.specs.declared.kind.Kind.TheVariants as kind;
ghost use Rattle.cf_core.specs.FromTypes.{Tables as TablesOf, type_of};
ghost use Rattle.cf_core.specs.View.{change_of};
ghost use Rattle.cf_lower.specs.Kept as definition;
ghost use Rattle.cf_lower_held.specs.Holds.{erased, kept_in};
ghost use Rattle.cf_lower_held.specs.Scenes.{action_in, holding, locals_in};

use crate::held::{Held, of_one, of_place, of_scalar, place_in};
use crate::registers::Registers;
use crate::scene::{Scene, is_argument, type_of_local};
use cf_core::{Change, PointerOperator};
use cf_lower_types::{element_of, is_scalar, place_scalar, place_sort, result_sort, sort_of};
use cf_plain::Action;
use cf_types::TyId;

/// What a register holds that is set by an action.
#[tactic(auto, using(crate::proofs::Erased::erased_result, crate::proofs::Given::held_erased))]
pub fn kept_by(x: &Scene<'_>, rs: &Registers, a: &Action) -> Held
    ensures { kept_in x.now.tables.now result ≡ erased (definition.kept_by (locals_in x.now) (holding x.now rs.now) (action_in x.now a.now)) }
{
    match a {
        Action::Number { value } => number(*value),
        Action::Text { bytes, .. } => Held::Characters(bytes.len() as u64),
        Action::Local { number } => named(x, *number),
        Action::Static { ty, .. } => place_of(x, *ty),
        Action::Function { ty, .. } => Held::Code(*ty),
        Action::Read { place } => read(x, &rs.get(*place)),
        Action::Dereference { pointer } => rs.get(*pointer),
        Action::Decay { array } => decayed(x, &rs.get(*array)),
        Action::Index { left, right } => either_pointer(&rs.get(*left), &rs.get(*right)),
        Action::Convert { ty, .. } => of_scalar(&sort_of(x.tables, *ty)),
        Action::FromVoid { ty, .. } => Held::Place(*ty),
        Action::Operate { .. } | Action::Unary { .. } | Action::Truth { .. } | Action::Not { .. } =>
            Held::Integer,
        Action::PointerOperate { op, left, right } => {
            operated(*op, &rs.get(*left), &rs.get(*right))
        }
        Action::Changed { change, value, .. } => changed(*change, &rs.get(*value)),
        Action::Declare { local, ty } => declared(x, *local, *ty),
        Action::Call { ty, .. } | Action::PointerCall { ty, .. } => {
            of_scalar(&result_sort(x.tables, *ty))
        }
        _ => Held::Nothing,
    }
}

/// Whether int has a number, or unsigned int.
#[tactic(auto, using(crate::proofs::Constants::of_int, crate::proofs::Constants::of_unsigned))]
fn is_constant(value: i64) -> bool
    ensures { result ≡ integers.fits kind.Int value || integers.fits kind.UInt value }
{
    is_int(value) || is_unsigned(value)
}

#[tactic(auto, using(crate::proofs::Constants::of_int))]
fn is_int(value: i64) -> bool
    ensures { result ≡ integers.fits kind.Int value }
{
    -2147483648 <= value && value < 2147483648
}

#[tactic(auto, using(crate::proofs::Constants::of_unsigned))]
fn is_unsigned(value: i64) -> bool
    ensures { result ≡ integers.fits kind.UInt value }
{
    0 <= value && value < 4294967296
}

/// What a constant gives.
fn number(value: i64) -> Held
    ensures { (tables : TablesOf) → kept_in tables result ≡ erased (definition.constant_kept value) }
{
    if is_constant(value) {
        Held::Integer
    } else {
        Held::Nothing
    }
}

/// What a name of this type gives.
#[tactic(auto, using(crate::proofs::Given::named_place))]
fn place_of(x: &Scene<'_>, ty: TyId) -> Held
    ensures { kept_in x.now.tables.now result ≡ erased (definition.place_of (type_of x.now.tables.now ty)) }
{
    of_one(&place_sort(x.tables, ty))
}

/// What a local's name gives.
#[tactic(auto, using(crate::proofs::Given::named_same, crate::proofs::Given::void_place))]
fn named(x: &Scene<'_>, local: u32) -> Held
    ensures { kept_in x.now.tables.now result ≡ erased (definition.place_of (definition.type_of_local (locals_in x.now) local)) }
{
    match type_of_local(x, local) {
        Some(ty) => place_of(x, ty),
        None => Held::Void,
    }
}

/// What the scalar holds whose place is given.
#[tactic(auto, using(crate::proofs::Given::read_place, crate::proofs::Given::read_nothing))]
fn read(x: &Scene<'_>, place: &Held) -> Held
    ensures { kept_in x.now.tables.now result ≡ erased (definition.read_kept (kept_in x.now.tables.now place.now)) }
{
    match place_in(place) {
        Some(ty) => of_scalar(&place_scalar(x.tables, ty)),
        None => Held::Nothing,
    }
}

/// A pointer to the first element of an array.
#[tactic(auto, using(crate::proofs::Given::decayed_place, crate::proofs::Given::decayed_other))]
fn decayed(x: &Scene<'_>, array: &Held) -> Held
    ensures { kept_in x.now.tables.now result ≡ erased (definition.decayed_kept (kept_in x.now.tables.now array.now)) }
{
    match place_in(array) {
        Some(ty) => of_place(&element_of(x.tables, ty)),
        None => *array,
    }
}

/// Of a pointer and an integer, the pointer.
#[tactic(auto, using(crate::proofs::Given::pointer_first, crate::proofs::Given::pointer_second))]
fn either_pointer(a: &Held, b: &Held) -> Held
    ensures { (tables : TablesOf) → kept_in tables result ≡ erased (definition.pointer_of (kept_in tables a.now) (kept_in tables b.now)) }
{
    match place_in(a) {
        Some(_) => *a,
        None => *b,
    }
}

#[tactic(auto, using(crate::proofs::Given::held_erased))]
fn operated(op: PointerOperator, a: &Held, b: &Held) -> Held
    ensures { (tables : TablesOf) → kept_in tables result ≡ erased (definition.operated_kept op (kept_in tables a.now) (kept_in tables b.now)) }
{
    match op {
        PointerOperator::Add => either_pointer(a, b),
        PointerOperator::Subtract => *a,
        PointerOperator::Difference
        | PointerOperator::Less
        | PointerOperator::Greater
        | PointerOperator::LessEqual
        | PointerOperator::GreaterEqual
        | PointerOperator::Equal
        | PointerOperator::NotEqual => Held::Integer,
    }
}

#[tactic(auto, using(crate::proofs::Given::held_erased))]
fn changed(change: Change, value: &Held) -> Held
    ensures { (tables : TablesOf) → kept_in tables result ≡ erased (definition.changed_kept (change_of change) (kept_in tables value.now)) }
{
    match change {
        Change::Arithmetic { .. } => Held::Integer,
        Change::Moved { .. } => *value,
    }
}

/// The place of a local.
fn declared(x: &Scene<'_>, local: u32, ty: TyId) -> Held
    ensures { kept_in x.now.tables.now result ≡ erased (definition.declared_kept (locals_in x.now) local (type_of x.now.tables.now ty)) }
{
    if is_argument(x, local) && is_scalar(x.tables, ty) {
        Held::Argument(local, ty)
    } else {
        Held::Place(ty)
    }
}
