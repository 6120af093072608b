//! Statements of one action.

ghost use Rattle.std.specs.Prelude.{◌≡◌, ◌++◌, OnOk};
ghost use Rattle.std.specs.Option.{option_map};
ghost use Rattle.cc_whole.specs.Plain.{expression_of};
ghost use Rattle.cf_lower.specs.Kept as definition;
ghost use Rattle.cf_lower.specs.Statements as spec;
ghost use Rattle.cf_lower_held.specs.Holds.{erased, kept_in};
ghost use Rattle.cf_lower_held.specs.Scenes.{action_in, holding, locals_in};
ghost use Rattle.cf_lower_names.specs.Cells.{sort_for};
ghost use Rattle.cf_lower_stmt.specs.Steps.{inside, set_if, value_kept, written};
ghost use Rattle.cf_lower_stmt.specs.declared.around.Around.{Around};

use crate::calls::{by_name, call_alone, call_into, through};
use crate::stores::{bytes_in, first_in, stored_in};
use crate::writes::set_register;
use crate::zeros::zeros_in;
use cc_whole::{CExpression, CStatement};
use cf_base::{Boxed, Items, Memory};
use cf_lower_expr::{local_of, value, value_in};
use cf_lower_held::{Held, Registers, Scene};
use cf_lower_names::Cell;
use cf_plain::Action;
use std::alloc::Global;

/// Writes what is done by an action whose value is not kept.
pub(crate) fn done(
    x: &Scene<'_>,
    a: &Action,
    rs: &Registers,
    code: &mut Items<CStatement>,
) -> Result<(), Memory>
    ensures { (around : Around) → OnOk result (written code.new ≡ written code.old ++ spec.done (inside x.now around) (holding x.now rs.now) (action_in x.now a.now)) }
{
    match a {
        Action::Store { place, value } => {
            let given = value_in(x, rs, *value)?;
            stored_in(x, code, &rs.get(*place), *place, given)?;
            Ok(())
        }
        Action::First { place, value } => {
            let given = value_in(x, rs, *value)?;
            first_in(x, code, &rs.get(*place), *place, given)?;
            Ok(())
        }
        Action::Zeros { place } => {
            zeros_in(x, code, &rs.get(*place), *place)?;
            Ok(())
        }
        Action::Characters { place, bytes } => {
            bytes_in(x, code, &rs.get(*place), *place, bytes.as_slice())?;
            Ok(())
        }
        Action::Call {
            function,
            arguments,
            ..
        } => {
            let callee = by_name(x.alloc, function)?;
            call_alone(x.alloc, code, callee, arguments.as_slice())?;
            Ok(())
        }
        Action::PointerCall {
            pointer,
            ty,
            arguments,
            ..
        } => {
            let callee = through(x, *pointer, *ty)?;
            call_alone(x.alloc, code, callee, arguments.as_slice())?;
            Ok(())
        }
        _ => Ok(()),
    }
}

/// A value goes to the C local of a register, as this scalar.
fn put_in(
    alloc: Global,
    cell: Option<Cell>,
    register: u32,
    value: Boxed<CExpression>,
    code: &mut Items<CStatement>,
) -> Result<(), Memory>
    ensures { OnOk result (written code.new ≡ written code.old ++ set_if (option_map sort_for cell) register (expression_of value)) }
{
    match cell {
        None => Ok(()),
        Some(cell) => {
            set_register(alloc, code, cell, register, value)?;
            Ok(())
        }
    }
}

/// Writes an action that is no call, whose value is kept in a register that holds this from then on.
#[tactic(auto, using(crate::proofs::Erasing::kept_put))]
fn kept_value(
    x: &Scene<'_>,
    register: u32,
    a: &Action,
    held: &Held,
    rs: &Registers,
    code: &mut Items<CStatement>,
) -> Result<(), Memory>
    requires { kept_in x.now.tables.now held.now ≡ erased (definition.kept_by (locals_in x.now) (holding x.now rs.now) (action_in x.now a.now)) }
    ensures { (around : Around) → OnOk result (written code.new ≡ written code.old ++ value_kept (inside x.now around) (holding x.now rs.now) register (action_in x.now a.now)) }
{
    let made = value(x, rs, a)?;
    put_in(x.alloc, local_of(held), register, made, code)?;
    Ok(())
}

/// Writes an action whose value is kept in a register, which holds this from then on.
pub(crate) fn kept(
    x: &Scene<'_>,
    register: u32,
    a: &Action,
    held: &Held,
    rs: &Registers,
    code: &mut Items<CStatement>,
) -> Result<(), Memory>
    requires { kept_in x.now.tables.now held.now ≡ erased (definition.kept_by (locals_in x.now) (holding x.now rs.now) (action_in x.now a.now)) }
    ensures { (around : Around) → OnOk result (written code.new ≡ written code.old ++ spec.kept (inside x.now around) (holding x.now rs.now) register (action_in x.now a.now)) }
{
    match a {
        Action::Call {
            function,
            ty,
            arguments,
            ..
        } => {
            let callee = by_name(x.alloc, function)?;
            call_into(x, code, callee, *ty, arguments.as_slice(), register)?;
            Ok(())
        }
        Action::PointerCall {
            pointer,
            ty,
            arguments,
            ..
        } => {
            let callee = through(x, *pointer, *ty)?;
            call_into(x, code, callee, *ty, arguments.as_slice(), register)?;
            Ok(())
        }
        _ => {
            kept_value(x, register, a, held, rs, code)?;
            Ok(())
        }
    }
}
