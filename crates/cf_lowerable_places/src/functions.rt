//! Whole functions.

ghost use Rattle.std.specs.Prelude.{◌≡◌, ◌++◌, IfOk, OnOk};
ghost use Rattle.std.specs.List.{flat_map};
ghost use Rattle.cf_core.specs.FromTypes.{Tables as TablesOf};
ghost use Rattle.cf_lower.specs.Functions as definition;
ghost use Rattle.cf_lower_fn.specs.Walks.{action_at, told};
ghost use Rattle.cf_lower_place.specs.Named as named;
ghost use Rattle.cf_lower_types.specs.Bare.{classes_of};
ghost use Rattle.cf_plain.specs.View as view;

use crate::contents::Contents;
use crate::statements::statements;
use cf_base::{Items, Memory};
use cf_lower_fn::actions_of;
use cf_lower_held::Scene;
use cf_lower_types::Tables;
use cf_plain::{Action, PlainFn};
use cf_types::TyId;
use std::alloc::Global;

/// Puts numbers behind others.
fn add_all(numbers: &[u32], made: &mut Items<u32>) -> Result<(), Memory>
    ensures { OnOk result (made.new ≡ made.old ++ numbers.now) }
{
    for number in numbers {
        made.push(*number)?;
    }
    Ok(())
}

/// Puts the locals that are the objects of parameters of a call behind others.
fn add_arguments(a: &Action, made: &mut Items<u32>) -> Result<(), Memory>
    ensures { (tables : TablesOf) → OnOk result (made.new ≡ made.old ++ definition.arguments_at (action_at tables a.now)) }
{
    match a {
        Action::Call { arguments, .. } => {
            add_all(arguments.as_slice(), made)?;
            Ok(())
        }
        Action::PointerCall { arguments, .. } => {
            add_all(arguments.as_slice(), made)?;
            Ok(())
        }
        _ => Ok(()),
    }
}

/// The locals that are the objects of parameters of calls.
#[tactic(auto, using(cf_lower_fn::proofs::Lists::arguments_more))]
fn arguments_of(alloc: Global, tables: &Tables<'_>, all: &[&Action]) -> Result<Items<u32>, Memory>
    ensures { IfOk result (λ made. made ≡ flat_map definition.arguments_at (told tables.now all.now)) }
{
    let _types = tables.types();
    let mut made = Items::new(alloc);
    for action in all {
        add_arguments(*action, &mut made)?;
    }
    Ok(made)
}

/// The types of a function's parameters, and of its locals behind them.
fn object_types(alloc: Global, f: &PlainFn) -> Result<Items<TyId>, Memory>
    ensures { IfOk result (λ made. made ≡ f.now.params ++ f.now.locals) }
{
    let mut made = Items::from_slice(alloc, f.params.as_slice())?;
    for id in f.locals.as_slice() {
        made.push(*id)?;
    }
    Ok(made)
}

/// What the statements of a function stand in that does this.
fn scene<'x>(
    alloc: Global,
    tables: &'x Tables<'x>,
    f: &'x PlainFn,
    all: &[&Action],
) -> Result<Scene<'x>, Memory>
    ensures at { IfOk result (λ x. x.tables.now ≡ tables.now) }
    ensures given { IfOk result (λ x. x.result ≡ f.now.result) }
    ensures types { IfOk result (λ x. x.types ≡ f.now.params ++ f.now.locals) }
    ensures arguments { IfOk result (λ x. x.arguments ≡ flat_map definition.arguments_at (told tables.now all.now)) }
{
    let types = object_types(alloc, f)?;
    let arguments = arguments_of(alloc, tables, all)?;
    Ok(Scene {
        alloc,
        tables,
        function: f.name.as_slice(),
        result: f.result,
        types,
        arguments,
    })
}

/// Whether a function is in place.
pub fn is_in_place(alloc: Global, tables: &Tables<'_>, f: &PlainFn) -> Result<bool, Memory>
    ensures { IfOk result (λ good. good ≡ named.function_in_place (classes_of tables.now) (view.function_of tables.now f.now)) }
{
    let all = actions_of(alloc, tables, &f.body)?;
    let actions = all.as_slice();
    let x = scene(alloc, tables, f, actions)?;
    let mut cs = Contents::new(alloc);
    let good = statements(&x, &f.body, false, false, &mut cs)?;
    Ok(good)
}
