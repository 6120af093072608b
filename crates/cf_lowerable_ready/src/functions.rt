//! Whole functions.

ghost use Rattle.std.specs.Prelude.{◌≡◌, ◌++◌, IfOk};
ghost use Rattle.cf_lower_kept.specs.Ready as ready;
ghost use Rattle.cf_plain.specs.View as view;

use crate::contents::Contents;
use crate::scene::Scene;
use crate::statements::statements;
use cf_base::{Items, Memory};
use cf_lower_types::Tables;
use cf_plain::PlainFn;
use cf_types::TyId;
use std::alloc::Global;

/// The types of a function's parameters, and of its locals behind them.
fn object_types(alloc: Global, f: &PlainFn) -> Result<Items<TyId>, Memory>
    ensures { IfOk result (λ made. made ≡ f.now.params ++ f.now.locals) }
{
    let mut made = Items::from_slice(alloc, f.params.as_slice())?;
    for id in f.locals.as_slice() {
        made.push(*id)?;
    }
    Ok(made)
}

/// What the statements of a function stand in.
fn scene<'x>(alloc: Global, tables: &'x Tables<'x>, f: &PlainFn) -> Result<Scene<'x>, Memory>
    ensures at { IfOk result (λ x. x.tables.now ≡ tables.now) }
    ensures given { IfOk result (λ x. x.result ≡ f.now.result) }
    ensures types { IfOk result (λ x. x.types ≡ f.now.params ++ f.now.locals) }
{
    let types = object_types(alloc, f)?;
    Ok(Scene {
        alloc,
        tables,
        result: f.result,
        types,
    })
}

/// Whether a function is ready.
pub fn is_ready(alloc: Global, tables: &Tables<'_>, f: &PlainFn) -> Result<bool, Memory>
    ensures { IfOk result (λ good. good ≡ ready.function_ready (view.function_of tables.now f.now)) }
{
    let x = scene(alloc, tables, f)?;
    let mut cs = Contents::new(alloc);
    let good = statements(&x, &f.body, &mut cs)?;
    Ok(good)
}
