ghost use Rattle.std.specs.Prelude.{◌≡◌};
ghost use Rattle.cf_elab.specs.Choice as choice;

use cf_base::Arith;
use cf_syntax::{AssignOp, BinaryOp};

/// The operator of a compound assignment; `=` has none (5.17).
pub(crate) fn updating(op: AssignOp) -> Option<Arith>
    ensures { result ≡ choice.updating op }
{
    match op {
        AssignOp::Assign => None,
        AssignOp::Multiply => Some(Arith::Multiply),
        AssignOp::Divide => Some(Arith::Divide),
        AssignOp::Remainder => Some(Arith::Remainder),
        AssignOp::Add => Some(Arith::Add),
        AssignOp::Subtract => Some(Arith::Subtract),
        AssignOp::ShiftLeft => Some(Arith::ShiftLeft),
        AssignOp::ShiftRight => Some(Arith::ShiftRight),
        AssignOp::BitAnd => Some(Arith::And),
        AssignOp::BitXor => Some(Arith::Xor),
        AssignOp::BitOr => Some(Arith::Or),
    }
}

/// Whether an operator moves a pointer, and then whether it moves it back.
pub(crate) fn moves(op: Arith) -> Option<bool>
    ensures { result ≡ choice.moves op }
{
    match op {
        Arith::Add => Some(false),
        Arith::Subtract => Some(true),
        _ => None,
    }
}

/// The binary operator of a compound assignment.
pub(crate) fn binary_of(op: Arith) -> BinaryOp
    ensures { result ≡ choice.binary_of op }
{
    match op {
        Arith::Multiply => BinaryOp::Multiply,
        Arith::Divide => BinaryOp::Divide,
        Arith::Remainder => BinaryOp::Remainder,
        Arith::Add => BinaryOp::Add,
        Arith::Subtract => BinaryOp::Subtract,
        Arith::ShiftLeft => BinaryOp::ShiftLeft,
        Arith::ShiftRight => BinaryOp::ShiftRight,
        Arith::Less => BinaryOp::Less,
        Arith::Greater => BinaryOp::Greater,
        Arith::LessEqual => BinaryOp::LessEqual,
        Arith::GreaterEqual => BinaryOp::GreaterEqual,
        Arith::Equal => BinaryOp::Equal,
        Arith::NotEqual => BinaryOp::NotEqual,
        Arith::And => BinaryOp::BitAnd,
        Arith::Xor => BinaryOp::BitXor,
        Arith::Or => BinaryOp::BitOr,
    }
}
