//! What has no names of a unit in it, copied.

ghost use Rattle.std.specs.Prelude.{◌≡◌, IfOk};

use crate::names::copied;
use cc_whole::{CLocal, CParameter, CSignature};
use cf_base::{Items, Memory};
use std::alloc::Global;

pub(crate) fn copied_signature(alloc: Global, signature: &CSignature) -> Result<CSignature, Memory>
    ensures { IfOk result (λ made. made ≡ signature.now) }
{
    Ok(CSignature {
        result: signature.result,
        parameters: Items::from_slice(alloc, signature.parameters.as_slice())?,
    })
}

fn copied_local(alloc: Global, one: &CLocal) -> Result<CLocal, Memory>
    ensures { IfOk result (λ made. made ≡ one.now) }
{
    Ok(CLocal {
        ty: one.ty,
        name: copied(alloc, &one.name)?,
    })
}

pub(crate) fn copied_locals(alloc: Global, all: &[CLocal]) -> Result<Items<CLocal>, Memory>
    ensures { IfOk result (λ made. made ≡ all.now) }
{
    let mut made = Items::new(alloc);
    for one in all {
        made.push(copied_local(alloc, one)?)?;
    }
    Ok(made)
}

fn copied_parameter(alloc: Global, one: &CParameter) -> Result<CParameter, Memory>
    ensures { IfOk result (λ made. made ≡ one.now) }
{
    Ok(CParameter {
        ty: one.ty,
        name: copied(alloc, &one.name)?,
    })
}

pub(crate) fn copied_parameters(
    alloc: Global,
    all: &[CParameter],
) -> Result<Items<CParameter>, Memory>
    ensures { IfOk result (λ made. made ≡ all.now) }
{
    let mut made = Items::new(alloc);
    for one in all {
        made.push(copied_parameter(alloc, one)?)?;
    }
    Ok(made)
}
