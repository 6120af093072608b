//! Types by their numbers. A number that the file's table does not have stands for `void`.

ghost use Rattle.std.specs.Prelude.{◌≡◌, length};
ghost use Rattle.cf_base.specs.declared.kind.Kind.TheVariants.{Int};
ghost use Rattle.cf_types.specs.Table.{Names, NamesBelow};
ghost use Rattle.cf_core.specs.FromTypes.{type_of, type_step};
ghost use Rattle.cf_core.specs.FromUnit.{tables_of};
ghost use Rattle.cf_core.specs.Places as places;
ghost use Rattle.cf_core.specs.Types as types;
ghost use Rattle.cf_core.specs.Types.{integer, same_but_const};
ghost use Rattle.cf_core.specs.Typing as typing;
ghost use Rattle.cf_core_typed.specs.Same as same;
ghost use Rattle.cf_core_sound.specs.Simple as simple;

use cf_base::Kind;
use cf_core::CoreUnit;
use cf_types::{Ty, TyId};

/// The type of this number, as the table has it.
#[tactic(auto, using(cf_lower_types::proofs::Entries::no_names))]
pub(crate) fn entry(unit: &CoreUnit, id: TyId) -> Ty
    ensures value { type_of (tables_of unit.now) id ≡ type_step (tables_of unit.now) (type_of (tables_of unit.now)) result }
    ensures named { Names unit.now.types.funs id (length unit.now.types.funs) result }
    ensures earlier { NamesBelow id result }
{
    if (id.number() as usize) < unit.types().count() {
        *unit.ty(id)
    } else {
        Ty::Void
    }
}

/// Whether it is a function's.
pub(crate) fn is_function(unit: &CoreUnit, id: TyId) -> bool
    ensures { result ≡ typing.is_function (type_of (tables_of unit.now) id) }
{
    match entry(unit, id) {
        Ty::Fun(_) => true,
        _ => false,
    }
}

/// Whether const may stand on it (7.1.6).
pub(crate) fn takes_const(unit: &CoreUnit, id: TyId) -> bool
    ensures { result ≡ same.takes_const (type_of (tables_of unit.now) id) }
{
    match entry(unit, id) {
        Ty::Const(_) => false,
        Ty::Ref(_) => false,
        Ty::Array(_, _) => false,
        Ty::Fun(_) => false,
        _ => true,
    }
}

/// Whether it is a reference, const or not.
pub(crate) fn is_reference(unit: &CoreUnit, id: TyId) -> bool
    ensures { result ≡ places.is_reference (type_of (tables_of unit.now) id) }
{
    match entry(unit, id) {
        Ty::Ref(_) => true,
        Ty::Const(inner) => is_reference(unit, inner),
        _ => false,
    }
}

/// Whether it is `void`, const or not.
pub(crate) fn is_void(unit: &CoreUnit, id: TyId) -> bool
    ensures { result ≡ types.is_void (type_of (tables_of unit.now) id) }
{
    match entry(unit, id) {
        Ty::Void => true,
        Ty::Const(inner) => is_void(unit, inner),
        Ty::Fun(_) => false,
        _ => false,
    }
}

/// Whether a kind is that of `int`.
pub(crate) fn is_int_kind(kind: Kind) -> bool
    ensures first { result ≡ types.type_eq (integer Int) (integer kind) }
    ensures second { result ≡ types.type_eq (integer kind) (integer Int) }
{
    match kind {
        Kind::Int => true,
        Kind::Char
        | Kind::SChar
        | Kind::UChar
        | Kind::Short
        | Kind::UShort
        | Kind::UInt
        | Kind::Long
        | Kind::ULong => false,
    }
}

/// Whether it is `int`, const or not.
pub(crate) fn is_int(unit: &CoreUnit, id: TyId) -> bool
    ensures { result ≡ same_but_const (integer Int) (type_of (tables_of unit.now) id) }
{
    match entry(unit, id) {
        Ty::Int(kind) => is_int_kind(kind),
        Ty::Const(inner) => is_int(unit, inner),
        _ => false,
    }
}

/// The type without the const of its own.
pub(crate) fn plain(unit: &CoreUnit, id: TyId) -> TyId
    ensures { type_of (tables_of unit.now) result ≡ types.plain (type_of (tables_of unit.now) id) }
{
    match entry(unit, id) {
        Ty::Const(inner) => inner,
        _ => id,
    }
}

/// Whether it is a pointer to `void`.
fn is_void_pointer(unit: &CoreUnit, id: TyId) -> bool
    ensures { result ≡ simple.leads_to_void (type_of (tables_of unit.now) id) }
{
    match entry(unit, id) {
        Ty::Ptr(target) => is_void(unit, target),
        _ => false,
    }
}

/// Whether it is one to `void` but for the const of its own.
pub(crate) fn leads_to_void(unit: &CoreUnit, id: TyId) -> bool
    ensures { result ≡ simple.leads_to_void (types.plain (type_of (tables_of unit.now) id)) }
{
    is_void_pointer(unit, plain(unit, id))
}
