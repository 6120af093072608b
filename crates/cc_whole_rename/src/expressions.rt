ghost use Rattle.std.specs.Prelude.{◌≡◌, map, option_map, IfOk};
ghost use Rattle.cc_whole_link.specs.Rename.{expression_renamed, place_renamed, callee_renamed};
ghost use Rattle.cc_whole_rename.specs.Renamed.{renaming};

use crate::copies::copied_signature;
use crate::names::{Statics, used};
use cc_whole::{CCallee, CExpression, CPlace};
use cf_base::{Boxed, Items, Memory};
use cf_name_list::Names;
use std::alloc::Global;

/// An expression with the names of the program.
#[cycle(expressions)]
pub(crate) fn expression(
    alloc: Global,
    statics: &Statics<'_>,
    hidden: &Names<'_>,
    e: &CExpression,
) -> Result<CExpression, Memory>
    ensures { IfOk result (λ made. made ≡ expression_renamed e.now (renaming statics.now.unit statics.now.names hidden.now)) }
{
    Ok(match e {
        CExpression::Constant(constant) => CExpression::Constant(*constant),
        CExpression::Load(from) => CExpression::Load(place(alloc, statics, hidden, from)?),
        CExpression::Unary(op, inner) => {
            CExpression::Unary(*op, boxed(alloc, statics, hidden, inner)?)
        }
        CExpression::Cast(ty, inner) => CExpression::Cast(
            *ty,
            boxed(alloc, statics, hidden, inner)?,
        ),
        CExpression::AddressOf(name) => {
            CExpression::AddressOf(used(alloc, statics, hidden, name.as_slice())?)
        }
        CExpression::Binary(op, a, b) => {
            let a = boxed(alloc, statics, hidden, a)?;
            let b = boxed(alloc, statics, hidden, b)?;
            CExpression::Binary(*op, a, b)
        }
    })
}

/// The same on the heap.
#[cycle(expressions)]
pub(crate) fn boxed(
    alloc: Global,
    statics: &Statics<'_>,
    hidden: &Names<'_>,
    e: &Boxed<CExpression>,
) -> Result<Boxed<CExpression>, Memory>
    ensures { IfOk result (λ made. made ≡ expression_renamed e.now (renaming statics.now.unit statics.now.names hidden.now)) }
{
    let made = expression(alloc, statics, hidden, e.get())?;
    Boxed::new(alloc, made)
}

/// A place with the names of the program.
#[cycle(expressions)]
pub(crate) fn place(
    alloc: Global,
    statics: &Statics<'_>,
    hidden: &Names<'_>,
    at: &CPlace,
) -> Result<CPlace, Memory>
    ensures { IfOk result (λ made. made ≡ place_renamed at.now (renaming statics.now.unit statics.now.names hidden.now)) }
{
    Ok(match at {
        CPlace::Name(name) => CPlace::Name(used(alloc, statics, hidden, name.as_slice())?),
        CPlace::At(ty, e) => CPlace::At(*ty, boxed(alloc, statics, hidden, e)?),
    })
}

pub(crate) fn expressions(
    alloc: Global,
    statics: &Statics<'_>,
    hidden: &Names<'_>,
    all: &[CExpression],
) -> Result<Items<CExpression>, Memory>
    ensures { IfOk result (λ made. made ≡ map (λ e. expression_renamed e (renaming statics.now.unit statics.now.names hidden.now)) all.now) }
{
    let mut made = Items::new(alloc);
    for e in all {
        made.push(expression(alloc, statics, hidden, e)?)?;
    }
    Ok(made)
}

/// Where the result of a call is put, if it is.
pub(crate) fn target(
    alloc: Global,
    statics: &Statics<'_>,
    hidden: &Names<'_>,
    at: &Option<CPlace>,
) -> Result<Option<CPlace>, Memory>
    ensures { IfOk result (λ made. made ≡ option_map (λ p. place_renamed p (renaming statics.now.unit statics.now.names hidden.now)) at.now) }
{
    Ok(match at {
        None => None,
        Some(at) => Some(place(alloc, statics, hidden, at)?),
    })
}

/// What is returned, if anything is.
pub(crate) fn given(
    alloc: Global,
    statics: &Statics<'_>,
    hidden: &Names<'_>,
    e: &Option<Boxed<CExpression>>,
) -> Result<Option<Boxed<CExpression>>, Memory>
    ensures { IfOk result (λ made. made ≡ option_map (λ e. expression_renamed e (renaming statics.now.unit statics.now.names hidden.now)) e.now) }
{
    Ok(match e {
        None => None,
        Some(e) => Some(boxed(alloc, statics, hidden, e)?),
    })
}

/// What is called.
pub(crate) fn callee(
    alloc: Global,
    statics: &Statics<'_>,
    hidden: &Names<'_>,
    called: &CCallee,
) -> Result<CCallee, Memory>
    ensures { IfOk result (λ made. made ≡ callee_renamed called.now (renaming statics.now.unit statics.now.names hidden.now)) }
{
    Ok(match called {
        CCallee::Name(name) => CCallee::Name(used(alloc, statics, hidden, name.as_slice())?),
        CCallee::Pointer(signature, e) => {
            let signature = copied_signature(alloc, signature)?;
            CCallee::Pointer(signature, boxed(alloc, statics, hidden, e)?)
        }
    })
}
