ghost use Rattle.std.specs.Prelude.{◌≡◌, ◌<◌, length, IfOk, All, Some};
ghost use Rattle.std.specs.Option.{option_map};
ghost use Rattle.cf_types.specs.Table.{fun_parts};
ghost use Rattle.cf_core_shape.specs.Shapes as spec;

use crate::shape::shape_of;
use cf_base::{Items, Memory};
use cf_core::CoreUnit;
use cf_run_tree::{Shape, Signature};
use cf_types::{Fun, Ty, TyId};
use std::alloc::Global;

/// The shapes that the types of these numbers are, if each of them is one.
fn shapes(alloc: Global, unit: &CoreUnit, ids: &[TyId]) -> Result<Option<Items<Shape>>, Memory>
    requires { All (λ t. t < length unit.now.types.types) ids.now }
    ensures { IfOk result (λ found. found ≡ spec.each (spec.shape_of unit.now.types.types) ids.now) }
{
    let mut found = Items::new(alloc);
    for id in ids {
        match shape_of(unit, *id) {
            Some(Shape { is_const, form }) => found.push(Shape { is_const, form })?,
            None => return Ok(None),
        }
    }
    Ok(Some(found))
}

/// The type of functions with these parameters and this result, if each of them is `void` or a scalar that the trees have (8.2.5).
pub fn signature(
    alloc: Global,
    unit: &CoreUnit,
    params: &[TyId],
    given: TyId,
) -> Result<Option<Signature>, Memory>
    requires known { All (λ t. t < length unit.now.types.types) params.now }
    requires given_known { given < length unit.now.types.types }
    ensures { IfOk result (λ found. found ≡ spec.signature unit.now.types params.now given) }
{
    match shapes(alloc, unit, params)? {
        Some(params) => Ok(giving(params, shape_of(unit, given))),
        None => Ok(None),
    }
}

/// The type of functions with these parameters and a result of this shape.
fn giving(params: Items<Shape>, given: Option<Shape>) -> Option<Signature>
    ensures { result ≡ option_map (λ r. record { params = params; result = r }) given }
{
    match given {
        Some(result) => Some(Signature { params, result }),
        None => None,
    }
}

/// The same of a function type, if it is none of const member functions.
fn function_signature(
    alloc: Global,
    unit: &CoreUnit,
    function: &Fun,
) -> Result<Option<Signature>, Memory>
    requires { All (λ t. t < length unit.now.types.types) (fun_parts function.now) }
    ensures { IfOk result (λ found. found ≡ spec.function_signature unit.now.types (Some function.now)) }
{
    if function.is_const {
        return Ok(None);
    }
    signature(alloc, unit, function.params.as_slice(), function.result)
}

/// The type of functions that the type of this number is, if it is one over `void` and scalars that the trees have.
pub fn signature_of(alloc: Global, unit: &CoreUnit, id: TyId) -> Result<Option<Signature>, Memory>
    requires { id < length unit.now.types.types }
    ensures { IfOk result (λ found. found ≡ spec.signature_of unit.now.types id) }
{
    match unit.ty(id) {
        Ty::Fun(number) => function_signature(alloc, unit, unit.fun(*number)),
        _ => Ok(None),
    }
}
