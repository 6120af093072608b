//! Whether the names that actions have are among others.

ghost use Rattle.std.specs.Prelude.{◌≡◌, IfOk};
ghost use Rattle.std.specs.List.{flat_map};
ghost use Rattle.cf_core.specs.FromTypes.{Tables as TablesOf};
ghost use Rattle.cf_lower.specs.Functions.{declared_at};
ghost use Rattle.cf_lower_fn.specs.Walks.{action_at, told};
ghost use Rattle.cf_lower_types.specs.Bare.{classes_of};
ghost use Rattle.cf_lowerable_names.specs.Given as spec;

use cf_base::{Items, Memory};
use cf_lower_fn::actions_of;
use cf_lower_types::Tables;
use cf_name_list::Names;
use cf_plain::{Action, Plain, PlainFn, PlainStatic};
use std::alloc::Global;

/// Whether what an action names is there, if it names anything.
fn is_there(names: &Names<'_>, action: &Action) -> bool
    ensures { (tables : TablesOf) → result ≡ spec.are_in names.now (declared_at (classes_of tables) (action_at tables action.now)) }
{
    match action {
        Action::Static { name, .. } => names.has(name.as_slice()),
        Action::Function { name, .. } => names.has(name.as_slice()),
        Action::Call { function, .. } => names.has(function.as_slice()),
        _ => true,
    }
}

/// Whether all that actions name is there.
fn are_there(names: &Names<'_>, actions: &[&Action]) -> bool
    ensures { (tables : TablesOf) → result ≡ spec.are_in names.now (flat_map (declared_at (classes_of tables)) (told tables actions.now)) }
{
    for action in actions {
        if !is_there(names, *action) {
            return false;
        }
    }
    true
}

/// Whether all that statements name is there.
fn statements_there(
    alloc: Global,
    tables: &Tables<'_>,
    names: &Names<'_>,
    statements: &Items<Plain>,
) -> Result<bool, Memory>
    ensures { IfOk result (λ there. there ≡ spec.are_in names.now (spec.named_by tables.now statements.now)) }
{
    let done = actions_of(alloc, tables, statements)?;
    let actions = done.as_slice();
    Ok(are_there(names, actions))
}

/// Whether all that functions name is there.
pub(crate) fn functions_there(
    alloc: Global,
    tables: &Tables<'_>,
    names: &Names<'_>,
    functions: &[PlainFn],
) -> Result<bool, Memory>
    ensures { IfOk result (λ there. there ≡ spec.functions_in names.now tables.now functions.now) }
{
    for function in functions {
        if !statements_there(alloc, tables, names, &function.body)? {
            return Ok(false);
        }
    }
    Ok(true)
}

/// Whether all that initialisers name is there.
pub(crate) fn statics_there(
    alloc: Global,
    tables: &Tables<'_>,
    names: &Names<'_>,
    statics: &[PlainStatic],
) -> Result<bool, Memory>
    ensures { IfOk result (λ there. there ≡ spec.statics_in names.now tables.now statics.now) }
{
    for object in statics {
        if !statements_there(alloc, tables, names, &object.start)? {
            return Ok(false);
        }
    }
    Ok(true)
}
