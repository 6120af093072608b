//! The elements of arrays.

ghost use Rattle.std.specs.Prelude.{◌≡◌, ◌<◌, length, slice_get, IfSome};
ghost use Rattle.cf_sequence_stmt.specs.Rows.{row_at, row_in};

use cf_core::CoreUnit;
use cf_types::{Ty, TyId};

/// An array: the type of its elements, and how many it has.
#[derive(Clone, Copy, Debug, PartialEq, Eq)]
pub struct Row {
    pub element: TyId,
    pub bound: u32,
}

/// Of a type that is an array by itself.
fn plain_array(unit: &CoreUnit, ty: TyId) -> Option<Row>
    requires { ty < length unit.now.types.types }
    ensures is { result ≡ row_in (slice_get unit.now.types.types ty) }
    ensures there { IfSome result (λ r. r.element < length unit.now.types.types) }
{
    match unit.ty(ty) {
        Ty::Array(element, bound) => Some(Row {
            element: *element,
            bound: *bound,
        }),
        _ => None,
    }
}

/// Of an array type, const or not; none of another type.
pub fn array_at(unit: &CoreUnit, ty: TyId) -> Option<Row>
    requires { ty < length unit.now.types.types }
    ensures is { result ≡ row_at unit.now.types ty }
    ensures there { IfSome result (λ r. r.element < length unit.now.types.types) }
{
    match unit.ty(ty) {
        Ty::Const(inner) => plain_array(unit, *inner),
        _ => plain_array(unit, ty),
    }
}
