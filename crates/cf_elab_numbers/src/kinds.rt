ghost use Rattle.std.specs.Prelude.{◌≡◌};
ghost use Rattle.cf_types.specs.Operators as operators;
ghost use Rattle.cf_elab.specs.Arithmetic as arithmetic;
ghost use Rattle.cf_elab.specs.Choice as choice;

use cf_base::{Arith, Kind};
use cf_types::usual;

/// Whether the right operand is a count, which keeps its own promoted type (5.8).
pub fn is_shift(op: Arith) -> bool
    ensures { result ≡ operators.is_shift op }
{
    matches!(op, Arith::ShiftLeft | Arith::ShiftRight)
}

/// The type that the left operand of an operator is converted to, by the promoted types of both (4.5, 5.8).
pub fn operator_kind(op: Arith, left: Kind, right: Kind) -> Kind
    ensures { result ≡ choice.operator_kind op left right }
{
    if is_shift(op) {
        left
    } else {
        usual(left, right)
    }
}

/// The type that the right operand of an operator is converted to (4.5, 5.8).
pub fn operand_kind(op: Arith, left: Kind, right: Kind) -> Kind
    ensures { result ≡ choice.operand_kind op left right }
{
    if is_shift(op) {
        right
    } else {
        usual(left, right)
    }
}

/// The type of what an operator gives at operands of this type: int where it compares (5.9, 5.10).
pub fn result_kind(op: Arith, kind: Kind) -> Kind
    ensures { result ≡ arithmetic.result_kind op kind }
{
    match op {
        Arith::Less
        | Arith::Greater
        | Arith::LessEqual
        | Arith::GreaterEqual
        | Arith::Equal
        | Arith::NotEqual => Kind::Int,
        _ => kind,
    }
}
