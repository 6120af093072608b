//! Whole functions.

ghost use Rattle.std.specs.Prelude.{◌≡◌, ◌++◌, length, map, IfOk, OnOk};
ghost use Rattle.std.specs.List.{flat_map};
ghost use Rattle.cc_whole.specs.Plain as c;
ghost use Rattle.cf_core.specs.FromTypes.{Tables as TablesOf, type_of};
ghost use Rattle.cf_lower.specs.Functions as spec;
ghost use Rattle.cf_lower.specs.Kept.{nothing_kept};
ghost use Rattle.cf_lower.specs.Statements as statement;
ghost use Rattle.cf_lower_held.specs.Scenes.{statements_in};
ghost use Rattle.cf_lower_stmt.specs.Steps.{inside, written};
ghost use Rattle.cf_lower_types.specs.Bare.{classes_of};
ghost use Rattle.cf_lower_fn.specs.Parts as parts;
ghost use Rattle.cf_lower_fn.specs.Walks.{action_at, statements_at, told};
ghost use Rattle.cf_plain.specs.View as view;

use crate::counts::{bound, nesting};
use crate::locals::{add_flags, add_locals, add_registers};
use crate::prototypes::own_prototype;
use crate::results::add_results;
use crate::walk::actions_of;
use cc_whole::{CBody, CFunction, CLocal, CPrototype, CStatement};
use cf_base::{Items, Memory};
use cf_lower_held::{Registers, Scene};
use cf_lower_stmt::{Around, Way, no_value, statements};
use cf_lower_types::Tables;
use cf_plain::{Action, Plain, PlainFn};
use cf_types::TyId;
use std::alloc::Global;

/// Puts the locals that are the objects of parameters of a call behind others.
fn add_arguments(a: &Action, made: &mut Items<u32>) -> Result<(), Memory>
    ensures { (tables : TablesOf) → OnOk result (made.new ≡ made.old ++ spec.arguments_at (action_at tables a.now)) }
{
    match a {
        Action::Call { arguments, .. } => {
            add_all(arguments.as_slice(), made)?;
            Ok(())
        }
        Action::PointerCall { arguments, .. } => {
            add_all(arguments.as_slice(), made)?;
            Ok(())
        }
        _ => Ok(()),
    }
}

/// Puts numbers behind others.
fn add_all(numbers: &[u32], made: &mut Items<u32>) -> Result<(), Memory>
    ensures { OnOk result (made.new ≡ made.old ++ numbers.now) }
{
    for number in numbers {
        made.push(*number)?;
    }
    Ok(())
}

/// The locals that are the objects of parameters of calls.
#[tactic(auto, using(crate::proofs::Lists::arguments_more))]
fn arguments_of(alloc: Global, tables: &Tables<'_>, all: &[&Action]) -> Result<Items<u32>, Memory>
    ensures { IfOk result (λ made. made ≡ flat_map spec.arguments_at (told tables.now all.now)) }
{
    let _types = tables.types();
    let mut made = Items::new(alloc);
    for action in all {
        add_arguments(*action, &mut made)?;
    }
    Ok(made)
}

/// The types of a function's parameters, and of its locals behind them.
fn object_types(alloc: Global, f: &PlainFn) -> Result<Items<TyId>, Memory>
    ensures { IfOk result (λ made. made ≡ f.now.params ++ f.now.locals) }
{
    let mut made = Items::from_slice(alloc, f.params.as_slice())?;
    for id in f.locals.as_slice() {
        made.push(*id)?;
    }
    Ok(made)
}

/// The C locals of a function that does this.
fn c_locals(
    alloc: Global,
    tables: &Tables<'_>,
    f: &PlainFn,
    all: &[&Action],
) -> Result<Items<CLocal>, Memory>
    ensures { IfOk result (λ made. made ≡ spec.own_locals (classes_of tables.now) (length f.now.params) (map (type_of tables.now) f.now.locals)
        ++ spec.registers (spec.all_bound (statements_at tables.now f.now.body)) ++ spec.flags (spec.all_nesting (statements_at tables.now f.now.body))
        ++ spec.results (told tables.now all.now)) }
{
    let Ok(first) = u32::try_from(f.params.len()) else {
        return Err(Memory);
    };
    let mut made = Items::new(alloc);
    add_locals(alloc, tables, first, f.locals.as_slice(), &mut made)?;
    add_registers(alloc, bound(tables, &f.body), &mut made)?;
    add_flags(alloc, nesting(tables, &f.body)?, &mut made)?;
    add_results(alloc, tables, all, &mut made)?;
    Ok(made)
}

/// What the statements of a function stand in that does this.
fn scene<'x>(
    alloc: Global,
    tables: &'x Tables<'x>,
    f: &'x PlainFn,
    all: &[&Action],
) -> Result<Scene<'x>, Memory>
    ensures at { IfOk result (λ x. x.tables.now ≡ tables.now) }
    ensures named { IfOk result (λ x. x.function.now ≡ f.now.name) }
    ensures given { IfOk result (λ x. x.result ≡ f.now.result) }
    ensures types { IfOk result (λ x. x.types ≡ f.now.params ++ f.now.locals) }
    ensures arguments { IfOk result (λ x. x.arguments ≡ flat_map spec.arguments_at (told tables.now all.now)) }
{
    let types = object_types(alloc, f)?;
    let arguments = arguments_of(alloc, tables, all)?;
    Ok(Scene {
        alloc,
        tables,
        function: f.name.as_slice(),
        result: f.result,
        types,
        arguments,
    })
}

/// The C statements of a function's body. One that flows off its end gives what nothing can use.
fn code(x: &Scene<'_>, body: &Items<Plain>) -> Result<Items<CStatement>, Memory>
    ensures { IfOk result (λ made. written made
        ≡ statement.all_lowered (statements_in x.now body.now) (inside x.now parts.nowhere) nothing_kept ++ statement.no_value (type_of x.now.tables.now x.now.result)) }
{
    let around = Around {
        depth: 0,
        leaving: Way::Nowhere,
        going_on: Way::Nowhere,
    };
    let mut held = Registers::new(x.alloc);
    let mut made = Items::new(x.alloc);
    statements(x, body, around, &mut held, &mut made)?;
    no_value(x, &mut made)?;
    Ok(made)
}

/// The C function of these parts.
#[tactic(auto, using(crate::proofs::Whole::made_is))]
pub fn made_function(
    is_shared: bool,
    prototype: CPrototype,
    locals: Items<CLocal>,
    statements: Items<CStatement>,
) -> CFunction
    ensures { c.function_of result ≡ parts.function_with is_shared prototype locals (written statements) }
{
    CFunction {
        is_shared,
        prototype,
        body: CBody { locals, statements },
    }
}

/// The C function of a plain one.
pub fn lower_function(alloc: Global, tables: &Tables<'_>, f: &PlainFn) -> Result<CFunction, Memory>
    ensures { IfOk result (λ made. c.function_of made ≡ spec.lowered_function (classes_of tables.now) (view.function_of tables.now f.now)) }
{
    let all = actions_of(alloc, tables, &f.body)?;
    let actions = all.as_slice();
    let prototype = own_prototype(alloc, tables, f)?;
    let locals = c_locals(alloc, tables, f, actions)?;
    let x = scene(alloc, tables, f, actions)?;
    let statements = code(&x, &f.body)?;
    Ok(made_function(f.is_shared, prototype, locals, statements))
}
