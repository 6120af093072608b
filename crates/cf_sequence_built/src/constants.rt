ghost use Rattle.std.specs.Prelude.{◌≡◌, ◌<◌, length, map, true};
ghost use Rattle.cf_core.specs.FromTypes.{type_of};
ghost use Rattle.cf_core.specs.FromUnit.{tables_of};
ghost use Rattle.cf_sequence_built.specs.Unbuilt as spec;

use crate::statements::is_filling;
use crate::types::{element, is_reference, is_row};
use crate::values::is_constant;
use cf_core::{Core, CoreUnit, Holder};
use cf_types::TyId;

/// Whether an initialiser sets an object of this type before any function is entered: by zeros, the characters of a literal, a constant or a list of
/// these (8.4, 8.4.1).
#[cycle(constants)]
fn sets(unit: &CoreUnit, ty: TyId, e: &Core) -> bool
    requires { ty < length unit.now.types.types }
    ensures { result ≡ spec.sets (type_of (tables_of unit.now) ty) (spec.constant e.now) }
{
    match e {
        Core::List { starts, rest, .. } => {
            if is_row(unit, ty) {
                let inner = element(unit, ty);
                each_sets(unit, inner, starts.as_slice()) && is_filling(rest.get())
            } else {
                false
            }
        }
        _ => is_filling(e) || is_constant(e),
    }
}

/// Whether each of these sets an object of this type.
#[cycle(constants)]
fn each_sets(unit: &CoreUnit, ty: TyId, all: &[Core]) -> bool
    requires { ty < length unit.now.types.types }
    ensures { result ≡ spec.each_sets (type_of (tables_of unit.now) ty) (map spec.constant all.now) }
{
    for e in all {
        if !sets(unit, ty, e) {
            return false;
        }
    }
    true
}

/// Whether an initialiser binds a static reference: to the place of something static, or to a static object of its own that a constant begins (8.4.3).
fn is_bound(e: &Core) -> bool
    ensures { result ≡ (spec.constant e.now).is_bound }
{
    match e {
        Core::Bind {
            holder: Holder::NoTemporary | Holder::StaticTemporary(_),
            operand,
            ..
        } => is_constant(operand.get()),
        _ => false,
    }
}

/// Whether it sets a static object of this type before any function is entered.
pub fn sets_object(unit: &CoreUnit, ty: TyId, e: &Core) -> bool
    requires { ty < length unit.now.types.types }
    ensures { result ≡ spec.sets_object (type_of (tables_of unit.now) ty) (spec.constant e.now) }
{
    is_bound(e) || (!is_reference(unit, ty) && sets(unit, ty, e))
}
