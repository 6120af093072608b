ghost use Rattle.std.specs.Prelude.{◌≡◌, ◌<◌, length, IfOk, All};
ghost use Rattle.std.specs.Option.{option_map, option_and_then};
ghost use Rattle.cf_core_shape.specs.Shapes as spec;

use crate::shape::shape_of;
use cf_base::{Items, Memory};
use cf_core::CoreUnit;
use cf_run_tree::{Bounds, ObjectType, Shape};
use cf_types::{Ty, TyId};
use std::alloc::Global;

/// The type of objects that the type of this number is, if it is a scalar that the trees have, an array of them or an array of such arrays (8.2.4).
#[tactic(auto, using(crate::proofs::Shaped::object_at))]
pub fn object_type_of(unit: &CoreUnit, id: TyId) -> Option<ObjectType>
    requires { id < length unit.now.types.types }
    ensures { result ≡ spec.object_type_of unit.now.types id }
{
    match unit.ty(id) {
        Ty::Array(element, count) => array_of(unit, *count, *element),
        _ => bounded(shape_of(unit, id), Bounds::None),
    }
}

/// An array of so many elements of the type of this number.
#[tactic(auto, using(crate::proofs::Shaped::row_at))]
fn array_of(unit: &CoreUnit, count: u32, id: TyId) -> Option<ObjectType>
    requires { id < length unit.now.types.types }
    ensures { result ≡ spec.array_of unit.now.types.types count id }
{
    match unit.ty(id) {
        Ty::Array(element, inner) => bounded(shape_of(unit, *element), Bounds::Two(count, *inner)),
        _ => bounded(shape_of(unit, id), Bounds::One(count)),
    }
}

/// The type of objects of this shape, in an array of these bounds.
fn bounded(shape: Option<Shape>, bounds: Bounds) -> Option<ObjectType>
    ensures { result ≡ option_map (spec.bounded bounds) shape }
{
    match shape {
        Some(shape) => Some(ObjectType { shape, bounds }),
        None => None,
    }
}

/// The types of objects that the types of these numbers are, if each of them is one.
pub fn object_types(
    alloc: Global,
    unit: &CoreUnit,
    ids: &[TyId],
) -> Result<Option<Items<ObjectType>>, Memory>
    requires { All (λ t. t < length unit.now.types.types) ids.now }
    ensures { IfOk result (λ found. found ≡ spec.each (spec.object_type_of unit.now.types) ids.now) }
{
    let mut found = Items::new(alloc);
    for id in ids {
        match object_type_of(unit, *id) {
            Some(ObjectType { shape, bounds }) => found.push(ObjectType { shape, bounds })?,
            None => return Ok(None),
        }
    }
    Ok(Some(found))
}
