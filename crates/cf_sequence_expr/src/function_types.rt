//! The parameters of functions.

ghost use Rattle.std.specs.Prelude.{◌≡◌, ◌<◌, length, slice_get, IfOk};
ghost use Rattle.cf_sequence_expr.specs.Parameters.{parameters_at, counted};

use crate::writing::behind;
use cf_base::{Items, Memory};
use cf_core::CoreUnit;
use cf_types::{Ty, TyId};
use std::alloc::Global;

/// The types of the parameters of a function type; none of another type.
pub fn parameters<'a>(unit: &'a CoreUnit, ty: TyId) -> &'a [TyId]
    requires { ty < length unit.now.types.types }
    ensures { result.now ≡ parameters_at unit.now.types ty }
{
    match unit.ty(ty) {
        Ty::Fun(fun) => unit.fun(*fun).params.as_slice(),
        _ => &[],
    }
}

/// So many numbers from the first on.
pub fn numbers(alloc: Global, first: u32, count: usize) -> Result<Items<u32>, Memory>
    ensures { IfOk result (λ made. made ≡ counted first count) }
{
    let mut made = Items::new(alloc);
    let mut number = first;
    for _ in 0..count {
        made.push(number)?;
        number = behind(number)?;
    }
    Ok(made)
}

/// The type of the parameter of this number, if there is one.
pub fn type_at(types: &[TyId], index: usize) -> Option<TyId>
    ensures { result ≡ slice_get types.now index }
{
    types.get(index).copied()
}
