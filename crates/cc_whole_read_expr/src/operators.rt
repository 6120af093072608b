//! Operators between operands.

ghost use Rattle.std.specs.Prelude.{◌≡◌, ◌≤◌};
ghost use Rattle.cc_whole.specs.Operators as operators;
ghost use Rattle.cc_whole_read_expr.specs.ReadExpr as spec;

use cc_whole_reading::Cursor;
use cc_whole_tokens::{Mark, Token};
use cf_base::Arith;

/// The operator that a sign is between two operands, and its level.
fn operator_of(mark: Mark) -> Option<(usize, Arith)>
    ensures { result ≡ operators.operator_of mark }
{
    match mark {
        Mark::Star => Some((1, Arith::Multiply)),
        Mark::Slash => Some((1, Arith::Divide)),
        Mark::Percent => Some((1, Arith::Remainder)),
        Mark::Plus => Some((2, Arith::Add)),
        Mark::Minus => Some((2, Arith::Subtract)),
        Mark::ShiftLeft => Some((3, Arith::ShiftLeft)),
        Mark::ShiftRight => Some((3, Arith::ShiftRight)),
        Mark::Less => Some((4, Arith::Less)),
        Mark::Greater => Some((4, Arith::Greater)),
        Mark::LessEqual => Some((4, Arith::LessEqual)),
        Mark::GreaterEqual => Some((4, Arith::GreaterEqual)),
        Mark::Equal => Some((5, Arith::Equal)),
        Mark::NotEqual => Some((5, Arith::NotEqual)),
        Mark::And => Some((6, Arith::And)),
        Mark::Xor => Some((7, Arith::Xor)),
        Mark::Or => Some((8, Arith::Or)),
        _ => None,
    }
}

fn joins(token: &Token) -> Option<(usize, Arith)>
    ensures { result ≡ operators.joins token.now }
{
    match token {
        Token::Mark(mark) => operator_of(*mark),
        Token::Dash => operator_of(Mark::Minus),
        _ => None,
    }
}

fn above(level: usize, operator: Option<(usize, Arith)>) -> Option<Arith>
    requires { level ≤ 8 }
    ensures { result ≡ spec.above level operator }
{
    match operator {
        Some((at, operator)) if at == level + 1 => Some(operator),
        _ => None,
    }
}

/// The operator that comes next, where its right operand is of this level.
pub fn operator_above(level: usize, c: &Cursor<'_>) -> Option<Arith>
    requires { level ≤ 8 }
    ensures { result ≡ spec.operator_above level c.now }
{
    match c.tokens() {
        [token, ..] => above(level, joins(token)),
        [] => None,
    }
}
