//! Operators on integers.

ghost use Rattle.std.specs.Prelude.{◌≡◌, IfOk};
ghost use Rattle.cc_whole.specs.Plain.{expression_of};
ghost use Rattle.cc_whole.specs.Plain as plain;
ghost use Rattle.cf_lower.specs.Expressions as spec;
ghost use Rattle.cf_types.specs.Operators as operators;

use cc_whole::{CExpression, Prefix};
use cf_base::{Arith, Boxed, Kind, Memory};
use cf_core::UnaryOperator;
use cf_lower_names::{as_bits, at_kind, binary, constant, integer_in, unary};
use cf_types::convert_int;
use std::alloc::Global;

/// A number, by its bits as an int.
pub fn constant_of(alloc: Global, value: i64) -> Result<Boxed<CExpression>, Memory>
    ensures { IfOk result (λ made. expression_of made ≡ spec.constant_of value) }
{
    let Ok(value) = i32::try_from(convert_int(value, Kind::Int)) else {
        return Err(Memory);
    };
    let made = constant(alloc, value)?;
    Ok(made)
}

/// Whether the right operand is a count (5.8).
fn is_shift(op: Arith) -> bool
    ensures { result ≡ operators.is_shift op }
{
    matches!(op, Arith::ShiftLeft | Arith::ShiftRight)
}

/// An operator on two integers of a kind, from their bits.
pub fn operated(
    alloc: Global,
    op: Arith,
    kind: Kind,
    left: u32,
    right: u32,
) -> Result<Boxed<CExpression>, Memory>
    ensures { IfOk result (λ made. expression_of made ≡ spec.operated op kind (spec.integer_in left) (spec.integer_in right)) }
{
    let a = at_kind(alloc, kind, integer_in(alloc, left)?)?;
    let b = integer_in(alloc, right)?;
    if is_shift(op) {
        let made = binary(alloc, op, a, b)?;
        Ok(made)
    } else {
        let other = at_kind(alloc, kind, b)?;
        let made = binary(alloc, op, a, other)?;
        Ok(made)
    }
}

fn prefix_of(op: UnaryOperator) -> Prefix
    ensures { result ≡ spec.prefix_of op }
{
    match op {
        UnaryOperator::Negate => Prefix::Negate,
        UnaryOperator::Complement => Prefix::Complement,
    }
}

/// The bits of an operator on one integer of a kind.
pub fn changed_by(
    alloc: Global,
    op: UnaryOperator,
    kind: Kind,
    operand: u32,
) -> Result<Boxed<CExpression>, Memory>
    ensures { IfOk result (λ made. expression_of made ≡ spec.as_bits (plain.unary (spec.prefix_of op) (spec.at_kind kind (spec.integer_in operand)))) }
{
    let value = at_kind(alloc, kind, integer_in(alloc, operand)?)?;
    let changed = unary(alloc, prefix_of(op), value)?;
    let made = as_bits(alloc, changed)?;
    Ok(made)
}
