ghost use Rattle.std.specs.Prelude.{◌≡◌};
ghost use Rattle.std.specs.Option.{option_map};
ghost use Rattle.std.specs.Result.{result_ok};
ghost use Rattle.cf_base.specs.Integers.{convert, int_op};
ghost use Rattle.cf_types.specs.Operators.{TakesOperands};
ghost use Rattle.cf_base.specs.declared.kind.Kind.TheVariants as kinds;
ghost use Rattle.cf_elab.specs.Arithmetic as arithmetic;
ghost use Rattle.cf_elab.specs.Choice as choice;
ghost use Rattle.cf_elab_numbers.specs.Numbers.{NumberOf, TakesRight};
ghost use Rattle.cf_elab_numbers.specs.Numbers as numbers;

use cf_base::{Arith, Kind};
use cf_types::{convert_int, int_op};

/// What an operator gives at two numbers, if both are known and it gives one (5.6 to 5.13).
#[tactic(auto, using(crate::proofs::Known::known_is))]
pub fn operated(op: Arith, kind: Kind, left: Option<i64>, right: Option<i64>) -> Option<i64>
    requires left { NumberOf kind left }
    requires right { TakesRight op kind right }
    ensures value { result ≡ numbers.operated op kind left right }
    ensures fits { NumberOf (arithmetic.result_kind op kind) result }
{
    match (left, right) {
        (Some(a), Some(b)) => value_of(op, kind, a, b),
        _ => None,
    }
}

/// What an operator gives at two numbers, if it gives one.
fn value_of(op: Arith, kind: Kind, a: i64, b: i64) -> Option<i64>
    requires { TakesOperands op kind a b }
    ensures value { result ≡ result_ok (int_op op kind a b) }
    ensures fits { NumberOf (arithmetic.result_kind op kind) result }
{
    int_op(op, kind, a, b)
}

/// The number less from 0 (5.3).
#[tactic(auto, using(crate::proofs::Known::negative_laws))]
pub fn negative(kind: Kind, number: Option<i64>) -> Option<i64>
    requires { NumberOf kind number }
    ensures value { result ≡ numbers.negative kind number }
    ensures fits { NumberOf kind result }
{
    match number {
        Some(a) => int_op(Arith::Subtract, kind, 0, a),
        None => None,
    }
}

/// The number with each of its bits turned (5.3).
pub fn complement(kind: Kind, number: Option<i64>) -> Option<i64>
    requires { NumberOf kind number }
    ensures value { result ≡ numbers.complement kind number }
    ensures fits { NumberOf kind result }
{
    match number {
        Some(a) => convert_number(kind, Some(-a - 1)),
        None => None,
    }
}

/// The number as one of this type (4.3).
#[tactic(auto, using(crate::proofs::Known::converted_laws))]
pub fn convert_number(kind: Kind, number: Option<i64>) -> Option<i64>
    ensures value { result ≡ option_map (convert kind) number }
    ensures fits { NumberOf kind result }
{
    match number {
        Some(a) => Some(convert_int(a, kind)),
        None => None,
    }
}

/// 1 where the number is 0, and else 0 (5.3).
pub fn inverted(number: Option<i64>) -> Option<i64>
    ensures value { result ≡ arithmetic.inverted number }
    ensures fits { NumberOf kinds.Int result }
{
    match number {
        Some(a) => Some(i64::from(a == 0)),
        None => None,
    }
}

/// 1 where no number is 0, and else 0 (5.14).
pub fn both_true(left: Option<i64>, right: Option<i64>) -> Option<i64>
    ensures value { result ≡ numbers.both_true left right }
    ensures fits { NumberOf kinds.Int result }
{
    match (left, right) {
        (Some(a), Some(b)) => Some(i64::from(a != 0 && b != 0)),
        _ => None,
    }
}

/// 0 where both numbers are 0, and else 1 (5.15).
pub fn one_true(left: Option<i64>, right: Option<i64>) -> Option<i64>
    ensures value { result ≡ numbers.one_true left right }
    ensures fits { NumberOf kinds.Int result }
{
    match (left, right) {
        (Some(a), Some(b)) => Some(i64::from(a != 0 || b != 0)),
        _ => None,
    }
}

/// The number that a condition chooses, if all three are known (5.16).
pub fn chosen(kind: Kind, condition: Option<i64>, yes: Option<i64>, no: Option<i64>) -> Option<i64>
    requires yes { NumberOf kind yes }
    requires no { NumberOf kind no }
    ensures value { result ≡ choice.chosen condition yes no }
    ensures fits { NumberOf kind result }
{
    match (condition, yes, no) {
        (Some(c), Some(a), Some(b)) => Some(if c == 0 { b } else { a }),
        _ => None,
    }
}
