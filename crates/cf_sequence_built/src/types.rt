ghost use Rattle.std.specs.Prelude.{◌≡◌, ◌<◌, length};
ghost use Rattle.cf_core.specs.FromTypes.{type_of};
ghost use Rattle.cf_core.specs.FromUnit.{tables_of};
ghost use Rattle.cf_core.specs.Places as places;
ghost use Rattle.cf_core.specs.Types.{is_class, plain, element};
ghost use Rattle.cf_sequence_built.specs.Unbuilt as spec;

use cf_core::CoreUnit;
use cf_types::{Ty, TyId};

/// Whether an object of this type is of a class.
pub fn is_of_class(unit: &CoreUnit, ty: TyId) -> bool
    requires { ty < length unit.now.types.types }
    ensures { result ≡ is_class (type_of (tables_of unit.now) ty) }
{
    match unit.ty(ty) {
        Ty::Class(_) => true,
        Ty::Const(inner) => is_of_class(unit, *inner),
        _ => false,
    }
}

/// Whether an object of this type is a reference.
pub fn is_reference(unit: &CoreUnit, ty: TyId) -> bool
    requires { ty < length unit.now.types.types }
    ensures { result ≡ places.is_reference (type_of (tables_of unit.now) ty) }
{
    match unit.ty(ty) {
        Ty::Ref(_) => true,
        Ty::Const(inner) => is_reference(unit, *inner),
        _ => false,
    }
}

/// Whether this is a function type whose result is no class.
pub fn is_called(unit: &CoreUnit, ty: TyId) -> bool
    requires { ty < length unit.now.types.types }
    ensures { result ≡ spec.is_called (tables_of unit.now) ty }
{
    match unit.ty(ty) {
        Ty::Fun(fun) => !is_of_class(unit, unit.fun(*fun).result),
        _ => false,
    }
}

/// The type without the const that stands outermost.
fn unqualified(unit: &CoreUnit, ty: TyId) -> TyId
    requires { ty < length unit.now.types.types }
    ensures is { type_of (tables_of unit.now) result ≡ plain (type_of (tables_of unit.now) ty) }
    ensures there { result < length unit.now.types.types }
{
    match unit.ty(ty) {
        Ty::Const(inner) => *inner,
        _ => ty,
    }
}

/// Whether it is an array.
fn is_array_itself(unit: &CoreUnit, ty: TyId) -> bool
    requires { ty < length unit.now.types.types }
    ensures { result ≡ spec.is_array_itself (type_of (tables_of unit.now) ty) }
{
    matches!(unit.ty(ty), Ty::Array(_, _))
}

/// The type of an array's elements; any other type itself.
fn element_itself(unit: &CoreUnit, ty: TyId) -> TyId
    requires { ty < length unit.now.types.types }
    ensures is { type_of (tables_of unit.now) result ≡ element (type_of (tables_of unit.now) ty) }
    ensures there { result < length unit.now.types.types }
{
    match unit.ty(ty) {
        Ty::Array(inner, _) => *inner,
        _ => ty,
    }
}

/// Whether this is an array, which may be const.
pub fn is_row(unit: &CoreUnit, ty: TyId) -> bool
    requires { ty < length unit.now.types.types }
    ensures { result ≡ spec.is_row (type_of (tables_of unit.now) ty) }
{
    is_array_itself(unit, unqualified(unit, ty))
}

/// The type of its elements.
pub fn element(unit: &CoreUnit, ty: TyId) -> TyId
    requires { ty < length unit.now.types.types }
    ensures is { type_of (tables_of unit.now) result ≡ element (plain (type_of (tables_of unit.now) ty)) }
    ensures there { result < length unit.now.types.types }
{
    element_itself(unit, unqualified(unit, ty))
}
