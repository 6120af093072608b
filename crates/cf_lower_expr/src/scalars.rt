//! Values by what a register holds.

ghost use Rattle.std.specs.Prelude.{◌≡◌, IfOk};
ghost use Rattle.std.specs.Option.{option_map};
ghost use Rattle.cc_whole.specs.Plain.{expression_of};
ghost use Rattle.cf_core.specs.FromTypes.{Tables as TablesOf};
ghost use Rattle.cf_lower.specs.Expressions as spec;
ghost use Rattle.cf_lower_held.specs.Holds.{kept_in};
ghost use Rattle.cf_lower_held.specs.Scenes.{holding};
ghost use Rattle.cf_lower_names.specs.Cells.{cell_of, sort_for};
ghost use Rattle.cf_lower_types.specs.Bare.{sort_in};
ghost use Rattle.cf_lower_expr.specs.Values.{local_cell, pointer_cell};

use cc_whole::CExpression;
use cf_base::{Boxed, Kind, Memory};
use cf_lower_held::{Held, Registers, Scene, holds_function, holds_integer, place_in};
use cf_lower_names::{Cell, address_in, as_value, in_register, loaded, zero};
use cf_lower_types::{Scalar, place_scalar};
use std::alloc::Global;

/// A scalar as a register holds it.
pub fn cell(scalar: &Scalar) -> Cell
    ensures { (tables : TablesOf) → result ≡ cell_of (sort_in tables scalar.now) }
{
    match scalar {
        Scalar::Number(kind) => Cell::Number(*kind),
        Scalar::Address(_) => Cell::Address,
        Scalar::Code(_) => Cell::Code,
    }
}

/// The same where there may be none.
pub fn cell_in(given: &Option<Scalar>) -> Option<Cell>
    ensures { (tables : TablesOf) → result ≡ option_map cell_of (option_map (sort_in tables) given.now) }
{
    match given {
        None => None,
        Some(scalar) => Some(cell(scalar)),
    }
}

/// How the C has an address or a function that a register holds.
#[tactic(auto, using(crate::proofs::ValueLaws::pointer_place, crate::proofs::ValueLaws::pointer_function, crate::proofs::ValueLaws::no_pointer))]
fn pointer_of(held: &Held) -> Option<Cell>
    ensures { (tables : TablesOf) → result ≡ pointer_cell (kept_in tables held.now) }
{
    match place_in(held) {
        Some(_) => Some(Cell::Address),
        None => {
            if holds_function(held) {
                Some(Cell::Code)
            } else {
                None
            }
        }
    }
}

/// How the C has what a register holds: an integer is an int there.
#[tactic(auto, using(crate::proofs::ValueLaws::local_integer, crate::proofs::ValueLaws::local_pointer))]
pub fn local_of(held: &Held) -> Option<Cell>
    ensures { (tables : TablesOf) → result ≡ local_cell (kept_in tables held.now) }
{
    if holds_integer(held) {
        Some(Cell::Number(Kind::Int))
    } else {
        pointer_of(held)
    }
}

/// The value of a scalar in a register; 0 where there is none.
fn local_value(
    alloc: Global,
    cell: Option<Cell>,
    register: u32,
) -> Result<Boxed<CExpression>, Memory>
    ensures { IfOk result (λ made. expression_of made ≡ spec.local_value (option_map sort_for cell) register) }
{
    match cell {
        None => zero(alloc),
        Some(cell) => {
            let made = in_register(alloc, cell, register)?;
            Ok(made)
        }
    }
}

/// The value in a register.
#[tactic(auto, using(crate::proofs::ValueLaws::local_by_cell))]
pub fn value_in(x: &Scene<'_>, rs: &Registers, register: u32) -> Result<Boxed<CExpression>, Memory>
    ensures { IfOk result (λ made. expression_of made ≡ spec.value_in (holding x.now rs.now) register) }
{
    let cell = local_of(&rs.get(register));
    let made = local_value(x.alloc, cell, register)?;
    Ok(made)
}

/// What a register holds, once more; 0 where it is no address and no function.
#[tactic(auto, using(crate::proofs::ValueLaws::same_some, crate::proofs::ValueLaws::same_none))]
pub fn same_value(x: &Scene<'_>, held: &Held, register: u32) -> Result<Boxed<CExpression>, Memory>
    ensures { IfOk result (λ made. expression_of made ≡ spec.same_value (kept_in x.now.tables.now held.now) register) }
{
    match pointer_of(held) {
        None => {
            let made = zero(x.alloc)?;
            Ok(made)
        }
        Some(cell) => {
            let value = in_register(x.alloc, cell, register)?;
            let made = as_value(x.alloc, cell, value)?;
            Ok(made)
        }
    }
}

/// What the scalar holds whose place is in a register; 0 where there is none.
fn loaded_or(alloc: Global, cell: Option<Cell>, register: u32) -> Result<Boxed<CExpression>, Memory>
    ensures { IfOk result (λ made. expression_of made ≡ spec.loaded_or (option_map sort_for cell) register) }
{
    match cell {
        None => zero(alloc),
        Some(cell) => {
            let address = address_in(alloc, register)?;
            let made = loaded(alloc, cell, address)?;
            Ok(made)
        }
    }
}

/// What the scalar holds whose place a register holds.
#[tactic(auto, using(crate::proofs::ValueLaws::read_none))]
pub fn read_value(x: &Scene<'_>, held: &Held, register: u32) -> Result<Boxed<CExpression>, Memory>
    ensures { IfOk result (λ made. expression_of made ≡ spec.read_value (kept_in x.now.tables.now held.now) register) }
{
    match place_in(held) {
        None => {
            let made = zero(x.alloc)?;
            Ok(made)
        }
        Some(ty) => {
            let scalar = place_scalar(x.tables, ty);
            let cell = cell_in(&scalar);
            let made = loaded_or(x.alloc, cell, register)?;
            Ok(made)
        }
    }
}
