//! Whether what actions name is lowered, and the names of functions and objects.

ghost use Rattle.std.specs.Prelude.{◌≡◌, IfOk, false};
ghost use Rattle.std.specs.List.{flat_map, list_all};
ghost use Rattle.cc_whole.specs.Plain.{declares, declares_variable, items_of};
ghost use Rattle.cf_core.specs.FromTypes.{type_of};
ghost use Rattle.cf_lower.specs.Functions.{declared_at, prototype_of as head_of};
ghost use Rattle.cf_lower.specs.Written.{variable_type};
ghost use Rattle.cf_lower_fn.specs.Walks.{action_at, told};
ghost use Rattle.cf_lower_types.specs.Bare.{classes_of};
ghost use Rattle.cf_lowerable_links.specs.Fits as links;
ghost use Rattle.cf_lowerable_names.specs.Given.{named_by};
ghost use Rattle.cf_lowerable_names.specs.Linked as spec;

use cc_whole::CItem;
use cf_base::{Items, Memory, Name};
use cf_lower_fn::{actions_of, object_type, prototype_of};
use cf_lower_types::Tables;
use cf_lowerable_links::{Meanings, all_fit, may_be_function, may_be_object, named_fits};
use cf_plain::{Action, Plain, PlainFn, PlainStatic};
use cf_types::TyId;
use std::alloc::Global;

/// Whether a static object that is named is as lowering asks.
fn object_fits(
    alloc: Global,
    tables: &Tables<'_>,
    known: &Meanings<'_>,
    name: &Name,
    ty: TyId,
) -> Result<bool, Memory>
    ensures { IfOk result (λ fits. fits
        ≡ links.named_fits known.now (declares_variable (variable_type (classes_of tables.now) (type_of tables.now ty)) name.now)) }
{
    let copy = Items::from_slice(alloc, name.as_slice())?;
    let object = object_type(tables, ty)?;
    let item = CItem::Extern(object, copy);
    Ok(named_fits(known, &item))
}

/// Whether a function that is named is.
fn function_fits(
    alloc: Global,
    tables: &Tables<'_>,
    known: &Meanings<'_>,
    name: &Name,
    ty: TyId,
) -> Result<bool, Memory>
    ensures { IfOk result (λ fits. fits ≡ links.named_fits known.now (declares (head_of false name.now (type_of tables.now ty)))) }
{
    let head = prototype_of(alloc, tables, name, ty)?;
    let item = CItem::Prototype(head);
    Ok(named_fits(known, &item))
}

/// Whether what an action names is, if it names anything.
fn action_fits(
    alloc: Global,
    tables: &Tables<'_>,
    known: &Meanings<'_>,
    action: &Action,
) -> Result<bool, Memory>
    ensures { IfOk result (λ fits. fits ≡ spec.all_named known.now (declared_at (classes_of tables.now) (action_at tables.now action.now))) }
{
    match action {
        Action::Static { name, ty } => {
            let fits = object_fits(alloc, tables, known, name, *ty)?;
            Ok(fits)
        }
        Action::Function { name, ty } => {
            let fits = function_fits(alloc, tables, known, name, *ty)?;
            Ok(fits)
        }
        Action::Call { function, ty, .. } => {
            let fits = function_fits(alloc, tables, known, function, *ty)?;
            Ok(fits)
        }
        _ => Ok(true),
    }
}

/// Whether all that actions name is.
fn actions_fit(
    alloc: Global,
    tables: &Tables<'_>,
    known: &Meanings<'_>,
    actions: &[&Action],
) -> Result<bool, Memory>
    ensures { IfOk result (λ fit. fit ≡ spec.all_named known.now (flat_map (declared_at (classes_of tables.now)) (told tables.now actions.now))) }
{
    for action in actions {
        if !action_fits(alloc, tables, known, *action)? {
            return Ok(false);
        }
    }
    Ok(true)
}

/// Whether all that statements name is.
fn statements_fit(
    alloc: Global,
    tables: &Tables<'_>,
    known: &Meanings<'_>,
    statements: &Items<Plain>,
) -> Result<bool, Memory>
    ensures { IfOk result (λ fit. fit ≡ spec.all_named known.now (named_by tables.now statements.now)) }
{
    let done = actions_of(alloc, tables, statements)?;
    let actions = done.as_slice();
    let fit = actions_fit(alloc, tables, known, actions)?;
    Ok(fit)
}

/// Whether all that functions name is.
fn bodies_fit(
    alloc: Global,
    tables: &Tables<'_>,
    known: &Meanings<'_>,
    functions: &[PlainFn],
) -> Result<bool, Memory>
    ensures { IfOk result (λ fit. fit ≡ spec.bodies_fit known.now tables.now functions.now) }
{
    for function in functions {
        if !statements_fit(alloc, tables, known, &function.body)? {
            return Ok(false);
        }
    }
    Ok(true)
}

/// Whether all that initialisers name is.
fn starts_fit(
    alloc: Global,
    tables: &Tables<'_>,
    known: &Meanings<'_>,
    statics: &[PlainStatic],
) -> Result<bool, Memory>
    ensures { IfOk result (λ fit. fit ≡ spec.starts_fit known.now tables.now statics.now) }
{
    for object in statics {
        if !statements_fit(alloc, tables, known, &object.start)? {
            return Ok(false);
        }
    }
    Ok(true)
}

/// Whether functions of these names are lowered.
fn functions_named(functions: &[PlainFn]) -> bool
    ensures { result ≡ spec.functions_named functions.now }
{
    for function in functions {
        if !may_be_function(function.name.as_slice()) {
            return false;
        }
    }
    true
}

/// Whether objects of these names are.
fn statics_named(statics: &[PlainStatic]) -> bool
    ensures { result ≡ spec.statics_named statics.now }
{
    for object in statics {
        if !may_be_object(object.name.as_slice()) {
            return false;
        }
    }
    true
}

/// Whether items are as lowering asks, and all that functions and initialisers name.
fn items_fit(
    alloc: Global,
    tables: &Tables<'_>,
    known: &Meanings<'_>,
    items: &[CItem],
    functions: &[PlainFn],
    statics: &[PlainStatic],
) -> Result<bool, Memory>
    ensures { IfOk result (λ fit. fit ≡ spec.items_fit known.now (items_of items.now) tables.now functions.now statics.now) }
{
    if !all_fit(known, items) {
        return Ok(false);
    }
    if !bodies_fit(alloc, tables, known, functions)? {
        return Ok(false);
    }
    let fit = starts_fit(alloc, tables, known, statics)?;
    Ok(fit)
}

/// Whether that is so with what names mean by these items, and functions and static objects have names that are lowered.
pub(crate) fn parts_fit(
    alloc: Global,
    tables: &Tables<'_>,
    items: &[CItem],
    functions: &[PlainFn],
    statics: &[PlainStatic],
) -> Result<bool, Memory>
    ensures { IfOk result (λ fit. fit ≡ spec.parts_fit (items_of items.now) tables.now functions.now statics.now) }
{
    if !functions_named(functions) {
        return Ok(false);
    }
    if !statics_named(statics) {
        return Ok(false);
    }
    let known = Meanings::of(alloc, items)?;
    let fit = items_fit(alloc, tables, &known, items, functions, statics)?;
    Ok(fit)
}
