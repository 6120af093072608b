//! Operators on known numbers.

ghost use Rattle.std.specs.Prelude.{◌≡◌, IfOk, IsTrue};
ghost use Rattle.std.specs.Result.{result_ok};
ghost use Rattle.cf_base.specs.Integers as integers;
ghost use Rattle.cf_types.specs.Operators as operators;
ghost use Rattle.cf_lower_constants.specs.Knowing as spec;

use crate::known::Fact;
use cf_base::{Arith, Kind, Memory};
use cf_core::UnaryOperator;
use cf_types::{convert_int, int_op};

/// The number, if it is known to be one.
pub fn number_of(fact: &Fact) -> Option<i64>
    ensures { result ≡ spec.fact_number fact.now }
{
    match fact {
        Fact::Number(number) => Some(*number),
        Fact::Nothing | Fact::Null | Fact::Place(_) | Fact::Function => None,
    }
}

/// A number, if there is one.
pub(crate) fn of_number(number: Option<i64>) -> Fact
    ensures { result ≡ spec.number_fact number }
{
    match number {
        None => Fact::Nothing,
        Some(number) => Fact::Number(number),
    }
}

/// Whether it is a value of the type (3.6.1).
pub fn fits(kind: Kind, number: i64) -> bool
    ensures { result ≡ integers.fits kind number }
{
    match kind {
        Kind::Char | Kind::SChar => -128 <= number && number < 128,
        Kind::UChar => 0 <= number && number < 256,
        Kind::Short => -32768 <= number && number < 32768,
        Kind::UShort => 0 <= number && number < 65536,
        Kind::Int | Kind::Long => -2147483648 <= number && number < 2147483648,
        Kind::UInt | Kind::ULong => 0 <= number && number < 4294967296,
    }
}

/// A value, if it is one of the type. Any other is answered as if memory had ended.
fn operand(kind: Kind, value: i64) -> Result<i64, Memory>
    ensures same { IfOk result (λ given. given ≡ value) }
    ensures fits { IfOk result (λ given. IsTrue (integers.fits kind given)) }
{
    if fits(kind, value) {
        Ok(value)
    } else {
        Err(Memory)
    }
}

/// Whether the right operand is a count (5.8).
fn is_shift(op: Arith) -> bool
    ensures { result ≡ operators.is_shift op }
{
    matches!(op, Arith::ShiftLeft | Arith::ShiftRight)
}

/// What an operator gives at two numbers, if it gives one (5.6 to 5.13). Numbers that no operands of the type are, are answered as if memory had ended.
#[tactic(auto, using(crate::proofs::Operands::shift_takes, crate::proofs::Operands::both_taken))]
fn computed(op: Arith, kind: Kind, a: i64, b: i64) -> Result<Option<i64>, Memory>
    ensures { IfOk result (λ given. given ≡ result_ok (integers.int_op op kind a b)) }
{
    let left = operand(kind, a)?;
    if is_shift(op) {
        return Ok(int_op(op, kind, left, b));
    }
    let right = operand(kind, b)?;
    Ok(int_op(op, kind, left, right))
}

/// The same where both may be unknown.
pub(crate) fn operated_on(
    op: Arith,
    kind: Kind,
    a: Option<i64>,
    b: Option<i64>,
) -> Result<Option<i64>, Memory>
    ensures { IfOk result (λ given. given ≡ spec.operated_on op kind a b) }
{
    let Some(left) = a else {
        return Ok(None);
    };
    let Some(right) = b else {
        return Ok(None);
    };
    let given = computed(op, kind, left, right)?;
    Ok(given)
}

/// What an operator gives at one number, if that is known (5.3).
pub(crate) fn changed_to(
    op: UnaryOperator,
    kind: Kind,
    a: Option<i64>,
) -> Result<Option<i64>, Memory>
    ensures { IfOk result (λ given. given ≡ spec.changed_to op kind a) }
{
    let Some(operand) = a else {
        return Ok(None);
    };
    match op {
        UnaryOperator::Negate => {
            let given = computed(Arith::Subtract, kind, 0, operand)?;
            Ok(given)
        }
        UnaryOperator::Complement => {
            let given = computed(Arith::Xor, kind, operand, convert_int(-1, kind))?;
            Ok(given)
        }
    }
}
