//! What stands in registers and in memory.

ghost use Rattle.std.specs.Prelude.{◌≡◌, IfOk};
ghost use Rattle.cc_whole.specs.Plain.{expression_of};
ghost use Rattle.cf_lower.specs.Expressions as spec;
ghost use Rattle.cf_lower_names.specs.Cells.{sort_for};

use crate::cell::{Cell, c_integer};
use crate::names::register_name;
use crate::nodes::{cast, constant, load_at, load_named};
use cc_whole::{CExpression, CType};
use cf_base::{Boxed, Kind, Memory};
use std::alloc::Global;

/// The constant 0.
pub fn zero(alloc: Global) -> Result<Boxed<CExpression>, Memory>
    ensures { IfOk result (λ made. expression_of made ≡ spec.zero) }
{
    constant(alloc, 0)
}

/// What stands in the C local of a register.
pub fn in_register(alloc: Global, cell: Cell, register: u32) -> Result<Boxed<CExpression>, Memory>
    ensures { IfOk result (λ made. expression_of made ≡ spec.in_register (sort_for cell) register) }
{
    let name = register_name(alloc, cell, register)?;
    let made = load_named(alloc, name)?;
    Ok(made)
}

/// The integer in a register.
pub fn integer_in(alloc: Global, register: u32) -> Result<Boxed<CExpression>, Memory>
    ensures { IfOk result (λ made. expression_of made ≡ spec.integer_in register) }
{
    in_register(alloc, Cell::Number(Kind::Int), register)
}

/// The address in a register.
pub fn address_in(alloc: Global, register: u32) -> Result<Boxed<CExpression>, Memory>
    ensures { IfOk result (λ made. expression_of made ≡ spec.address_in register) }
{
    in_register(alloc, Cell::Address, register)
}

/// A value as one of the type of its register.
pub fn as_value(
    alloc: Global,
    cell: Cell,
    value: Boxed<CExpression>,
) -> Result<Boxed<CExpression>, Memory>
    ensures { IfOk result (λ made. expression_of made ≡ spec.as_value (sort_for cell) (expression_of value)) }
{
    let made = cast(alloc, cell.register_type(), value)?;
    Ok(made)
}

/// A value as memory has it.
pub fn as_stored(
    alloc: Global,
    cell: Cell,
    value: Boxed<CExpression>,
) -> Result<Boxed<CExpression>, Memory>
    ensures { IfOk result (λ made. expression_of made ≡ spec.as_stored (sort_for cell) (expression_of value)) }
{
    let made = cast(alloc, cell.c_type(), value)?;
    Ok(made)
}

/// What a scalar at an address holds.
pub fn loaded(
    alloc: Global,
    cell: Cell,
    address: Boxed<CExpression>,
) -> Result<Boxed<CExpression>, Memory>
    ensures { IfOk result (λ made. expression_of made ≡ spec.loaded (sort_for cell) (expression_of address)) }
{
    let held = load_at(alloc, cell.c_type(), address)?;
    let made = as_value(alloc, cell, held)?;
    Ok(made)
}

/// An integer of a kind, from its bits.
pub fn at_kind(
    alloc: Global,
    kind: Kind,
    value: Boxed<CExpression>,
) -> Result<Boxed<CExpression>, Memory>
    ensures { IfOk result (λ made. expression_of made ≡ spec.at_kind kind (expression_of value)) }
{
    let made = cast(alloc, c_integer(kind), value)?;
    Ok(made)
}

/// The bits of an integer, as an int.
pub fn as_bits(alloc: Global, value: Boxed<CExpression>) -> Result<Boxed<CExpression>, Memory>
    ensures { IfOk result (λ made. expression_of made ≡ spec.as_bits (expression_of value)) }
{
    cast(alloc, CType::Int, value)
}
