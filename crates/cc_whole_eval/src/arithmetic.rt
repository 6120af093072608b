ghost use Rattle.std.specs.Prelude.{◌≡◌, true};
ghost use Rattle.cf_base.specs.Integers as integers;
ghost use Rattle.cc_whole_mean.specs.Values as values;
ghost use Rattle.cc_whole_memory.specs.Store.{answer, act_number};
ghost use Rattle.cf_types.specs.Operators.{is_shift, TakesOperands};
ghost use Rattle.cc_whole_eval.specs.Acts.{act_of as its_act};

use cc_whole::Prefix;
use cc_whole_memory::{Act, Value};
use cf_base::{Arith, Kind};
use cf_types::{convert_int, int_op, promote, usual};

/// Whether the integer is not 0.
pub fn is_true(number: i64) -> bool
    ensures { result ≡ values.is_true number }
{
    number != 0
}

/// 1 or 0, as an int.
pub fn truth_value(holds: bool) -> Value
    ensures { result ≡ values.truth_value holds }
{
    if holds {
        Value::Number(Kind::Int, 1)
    } else {
        Value::Number(Kind::Int, 0)
    }
}

/// The act that the operator is where it gives no value.
fn act_of(op: Arith, right: i64) -> Act
    ensures { act_number result ≡ its_act op right }
{
    match op {
        Arith::Divide | Arith::Remainder => { if right == 0 { Act::A2 } else { Act::A1 } }
        Arith::ShiftLeft | Arith::ShiftRight => Act::A3,
        _ => Act::A1,
    }
}

/// The operator at two numbers, the left one converted to a type.
fn shifted(op: Arith, kind: Kind, a: i64, b: i64) -> Result<i64, Act>
    requires { is_shift op ≡ true }
    ensures { answer result ≡ integers.int_op op kind (integers.convert kind a) b }
{
    match int_op(op, kind, convert_int(a, kind), b) {
        None => Err(act_of(op, b)),
        Some(number) => Ok(number),
    }
}

/// The operator at two values of a type.
fn exact(op: Arith, kind: Kind, a: i64, b: i64) -> Result<i64, Act>
    requires { TakesOperands op kind a b }
    ensures { answer result ≡ integers.int_op op kind a b }
{
    match int_op(op, kind, a, b) {
        None => Err(act_of(op, b)),
        Some(number) => Ok(number),
    }
}

/// The operator at two numbers, both converted to a type.
fn operated(op: Arith, kind: Kind, a: i64, b: i64) -> Result<i64, Act>
    ensures { answer result ≡ integers.int_op op kind (integers.convert kind a) (integers.convert kind b) }
{
    let left = convert_int(a, kind);
    let right = convert_int(b, kind);
    exact(op, kind, left, right)
}

/// The type of the result of an operator on two promoted types.
fn result_kind(op: Arith, kind: Kind) -> Kind
    ensures { result ≡ values.result_kind op kind }
{
    match op {
        Arith::Less
        | Arith::Greater
        | Arith::LessEqual
        | Arith::GreaterEqual
        | Arith::Equal
        | Arith::NotEqual => Kind::Int,
        _ => kind,
    }
}

/// The operator on two integers of these types (4.5, 5.6 to 5.13).
pub fn of_numbers(op: Arith, j: Kind, a: i64, k: Kind, b: i64) -> Result<Value, Act>
    ensures { answer result ≡ values.of_numbers op j a k b }
{
    match op {
        Arith::ShiftLeft | Arith::ShiftRight => {
            let number = shifted(op, promote(j), a, b)?;
            Ok(Value::Number(promote(j), number))
        }
        _ => {
            let kind = usual(j, k);
            let number = operated(op, kind, a, b)?;
            Ok(Value::Number(result_kind(op, kind), number))
        }
    }
}

/// An operator before one integer of this type (5.3).
pub fn prefixed(op: Prefix, kind: Kind, number: i64) -> Result<Value, Act>
    ensures { answer result ≡ values.prefixed op kind number }
{
    match op {
        Prefix::Negate => {
            let found = operated(Arith::Subtract, promote(kind), 0, number)?;
            Ok(Value::Number(promote(kind), found))
        }
        Prefix::Complement => {
            let found = operated(Arith::Xor, promote(kind), number, -1)?;
            Ok(Value::Number(promote(kind), found))
        }
        Prefix::Not => Ok(truth_value(!is_true(number))),
    }
}
