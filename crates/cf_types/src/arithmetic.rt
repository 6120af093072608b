ghost use Rattle.std.specs.Prelude.{◌≡◌, ℕ, ◌<◌, ◌≤◌, ◌^◌, pos, IsTrue, if◌then◌else◌};
ghost use Rattle.std.specs.Result.{result_ok};
ghost use Rattle.cf_base.specs.Integers as integers;
ghost use Rattle.cf_types.specs.Operators.{TakesOperands};

use crate::integers::{convert_int, is_signed, low_bits, modulus, value_of, width};
use cf_base::{Arith, Kind};

/// The result of an operator at two values of a type (5.6 to 5.13): a value of that type, and an int where it compares.
/// There is none where a signed result is out of range, a divisor is 0, or a shift count is negative or at least the width.
/// The right operand of a shift may have any type.
pub fn int_op(op: Arith, kind: Kind, a: i64, b: i64) -> Option<i64>
    requires { TakesOperands op kind a b }
    ensures { result ≡ result_ok (integers.int_op op kind a b) }
{
    match op {
        Arith::Multiply => product(kind, a, b),
        Arith::Divide => quotient(kind, a, b),
        Arith::Remainder => remainder(kind, a, b),
        Arith::Add => ranged(kind, a + b),
        Arith::Subtract => ranged(kind, a - b),
        Arith::ShiftLeft => shifted_left(kind, a, b),
        Arith::ShiftRight => shifted_right(kind, a, b),
        Arith::Less => Some(i64::from(a < b)),
        Arith::Greater => Some(i64::from(b < a)),
        Arith::LessEqual => Some(i64::from(a <= b)),
        Arith::GreaterEqual => Some(i64::from(b <= a)),
        Arith::Equal => Some(i64::from(a == b)),
        Arith::NotEqual => Some(i64::from(a != b)),
        Arith::And => Some(value_of(low_bits(a, kind) & low_bits(b, kind), kind)),
        Arith::Xor => Some(value_of(low_bits(a, kind) ^ low_bits(b, kind), kind)),
        Arith::Or => Some(value_of(low_bits(a, kind) | low_bits(b, kind), kind)),
    }
}

/// Whether this is a value of the type (3.6.1).
fn fits(kind: Kind, value: i64) -> bool
    ensures { result ≡ integers.fits kind value }
{
    let count = modulus(kind) as i64;
    if is_signed(kind) {
        -(count / 2) <= value && value < count / 2
    } else {
        0 <= value && value < count
    }
}

/// An exact result as a value of the type, if it is one or the type is unsigned.
fn ranged(kind: Kind, exact: i64) -> Option<i64>
    ensures { result ≡ result_ok (integers.ranged kind exact) }
{
    if fits(kind, exact) {
        Some(exact)
    } else if is_signed(kind) {
        None
    } else {
        Some(convert_int(exact, kind))
    }
}

/// The product of two values of the type.
fn product(kind: Kind, a: i64, b: i64) -> Option<i64>
    requires left { IsTrue (integers.fits kind a) }
    requires right { IsTrue (integers.fits kind b) }
    ensures { result ≡ result_ok (integers.int_op Arith.Multiply kind a b) }
{
    if is_signed(kind) {
        ranged(kind, a * b)
    } else {
        Some((a as u64 * b as u64 % modulus(kind)) as i64)
    }
}

/// The quotient of two values of the type, rounded towards zero.
fn quotient(kind: Kind, a: i64, b: i64) -> Option<i64>
    requires left { IsTrue (integers.fits kind a) }
    requires right { IsTrue (integers.fits kind b) }
    ensures { result ≡ result_ok (integers.quotient kind a b) }
{
    if b == 0 { None } else { ranged(kind, a / b) }
}

/// The remainder, which has the sign of the dividend.
fn remainder(kind: Kind, a: i64, b: i64) -> Option<i64>
    requires { IsTrue (integers.fits kind a) }
    ensures { result ≡ result_ok (integers.remainder a b) }
{
    if b == 0 { None } else { Some(a % b) }
}

/// The bits moved to the left by a count.
fn shifted_left(kind: Kind, a: i64, count: i64) -> Option<i64>
    ensures { result ≡ result_ok (integers.int_op Arith.ShiftLeft kind a count) }
{
    if 0 <= count && count < i64::from(width(kind)) {
        Some(value_of((low_bits(a, kind) << count as u32) % modulus(kind), kind))
    } else {
        None
    }
}

/// The value divided by 2 to a count, and rounded down.
fn shifted_right(kind: Kind, a: i64, count: i64) -> Option<i64>
    ensures { result ≡ result_ok (integers.int_op Arith.ShiftRight kind a count) }
{
    if 0 <= count && count < i64::from(width(kind)) {
        Some(a >> count as u32)
    } else {
        None
    }
}
