//! Conversions, and what is changed in place.

ghost use Rattle.std.specs.Prelude.{◌≡◌, IfOk};
ghost use Rattle.cc_whole.specs.Plain.{expression_of};
ghost use Rattle.cf_core.specs.FromTypes.{type_of};
ghost use Rattle.cf_core.specs.Types.{void};
ghost use Rattle.cf_core.specs.View.{change_of};
ghost use Rattle.cf_lower.specs.Expressions as definition;
ghost use Rattle.cf_lower_held.specs.Holds.{kept_in};
ghost use Rattle.cf_lower_held.specs.Scenes.{holding};
ghost use Rattle.cf_lower_layout.specs.Sorts.{address, sort_of as scalar_of};
ghost use Rattle.cf_lower_expr.specs.Pointers as spec;
ghost use Rattle.cf_lower_types.specs.Bare.{classes_of};

use crate::operators::operated;
use crate::pointers::moved;
use crate::scalars::cell_in;
use cc_whole::CExpression;
use cf_base::{Arith, Boxed, Memory};
use cf_core::Change;
use cf_lower_held::{Held, Registers, Scene, holds_integer};
use cf_lower_names::{Cell, address_in, as_bits, as_value, at_kind, in_register, integer_in, zero};
use cf_lower_types::sort_of;
use cf_types::TyId;
use std::alloc::Global;

/// A value as an address or a function; an integer is the constant 0.
fn as_pointer(
    alloc: Global,
    cell: Cell,
    is_zero: bool,
    operand: u32,
) -> Result<Boxed<CExpression>, Memory>
    ensures { IfOk result (λ made. expression_of made ≡ spec.pointer_by cell is_zero operand) }
{
    if is_zero {
        let value = zero(alloc)?;
        let made = as_value(alloc, cell, value)?;
        Ok(made)
    } else {
        let value = in_register(alloc, cell, operand)?;
        let made = as_value(alloc, cell, value)?;
        Ok(made)
    }
}

/// An integer as one of another kind, the constant 0 as a null pointer, a pointer as what it is.
fn converted_by(
    alloc: Global,
    to: Option<Cell>,
    is_zero: bool,
    operand: u32,
) -> Result<Boxed<CExpression>, Memory>
    ensures { IfOk result (λ made. expression_of made ≡ spec.converted_by to is_zero operand) }
{
    match to {
        None => zero(alloc),
        Some(Cell::Number(kind)) => {
            let integer = integer_in(alloc, operand)?;
            let value = at_kind(alloc, kind, integer)?;
            let made = as_bits(alloc, value)?;
            Ok(made)
        }
        Some(Cell::Address) => as_pointer(alloc, Cell::Address, is_zero, operand),
        Some(Cell::Code) => as_pointer(alloc, Cell::Code, is_zero, operand),
    }
}

/// A value that is converted to a type (4).
pub fn converted(
    x: &Scene<'_>,
    ty: TyId,
    held: &Held,
    operand: u32,
) -> Result<Boxed<CExpression>, Memory>
    ensures { IfOk result (λ made. expression_of made ≡ definition.converted (scalar_of (type_of x.now.tables.now ty)) (kept_in x.now.tables.now held.now) operand) }
{
    let scalar = sort_of(x.tables, ty);
    let to = cell_in(&scalar);
    let is_zero = holds_integer(held);
    let made = converted_by(x.alloc, to, is_zero, operand)?;
    Ok(made)
}

/// A pointer to void as one to an object (5.4).
pub fn from_void(alloc: Global, operand: u32) -> Result<Boxed<CExpression>, Memory>
    ensures { IfOk result (λ made. expression_of made ≡ definition.as_value (address void) (definition.address_in operand)) }
{
    let address = address_in(alloc, operand)?;
    let made = as_value(alloc, Cell::Address, address)?;
    Ok(made)
}

/// The new value of a scalar that is changed in place (5.17).
pub fn changed(
    x: &Scene<'_>,
    change: Change,
    rs: &Registers,
    value: u32,
    by: u32,
) -> Result<Boxed<CExpression>, Memory>
    ensures { IfOk result (λ made. expression_of made ≡ definition.changed (classes_of x.now.tables.now) (change_of change) (holding x.now rs.now) value by) }
{
    match change {
        Change::Arithmetic { op, at, to } => {
            let made = operated(x.alloc, op, at, value, by)?;
            let value = at_kind(x.alloc, to, made)?;
            let bits = as_bits(x.alloc, value)?;
            Ok(bits)
        }
        Change::Moved { back: false } => moved(x, Arith::Add, rs, value, by),
        Change::Moved { back: true } => moved(x, Arith::Subtract, rs, value, by),
    }
}
