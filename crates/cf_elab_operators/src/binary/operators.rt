ghost use Rattle.std.specs.Prelude.{◌≡◌};
ghost use Rattle.cf_elab.specs.Binary as binary;

use cf_base::Arith;
use cf_core::PointerOperator;
use cf_syntax::BinaryOp;

/// The operator on integers, where it is one (5.6 to 5.13).
pub(crate) fn integer_operator(op: BinaryOp) -> Option<Arith>
    ensures { result ≡ binary.integer_operator op }
{
    match op {
        BinaryOp::BitOr => Some(Arith::Or),
        BinaryOp::BitXor => Some(Arith::Xor),
        BinaryOp::BitAnd => Some(Arith::And),
        BinaryOp::Equal => Some(Arith::Equal),
        BinaryOp::NotEqual => Some(Arith::NotEqual),
        BinaryOp::Less => Some(Arith::Less),
        BinaryOp::Greater => Some(Arith::Greater),
        BinaryOp::LessEqual => Some(Arith::LessEqual),
        BinaryOp::GreaterEqual => Some(Arith::GreaterEqual),
        BinaryOp::ShiftLeft => Some(Arith::ShiftLeft),
        BinaryOp::ShiftRight => Some(Arith::ShiftRight),
        BinaryOp::Add => Some(Arith::Add),
        BinaryOp::Subtract => Some(Arith::Subtract),
        BinaryOp::Multiply => Some(Arith::Multiply),
        BinaryOp::Divide => Some(Arith::Divide),
        BinaryOp::Remainder => Some(Arith::Remainder),
        BinaryOp::LogicalOr | BinaryOp::LogicalAnd | BinaryOp::DotStar | BinaryOp::ArrowStar =>
            None,
    }
}

/// How two pointers into one array are compared by order, or subtracted (5.7, 5.9).
pub(crate) fn ordering(op: BinaryOp) -> Option<PointerOperator>
    ensures { result ≡ binary.ordering op }
{
    match op {
        BinaryOp::Less => Some(PointerOperator::Less),
        BinaryOp::Greater => Some(PointerOperator::Greater),
        BinaryOp::LessEqual => Some(PointerOperator::LessEqual),
        BinaryOp::GreaterEqual => Some(PointerOperator::GreaterEqual),
        BinaryOp::Subtract => Some(PointerOperator::Difference),
        _ => None,
    }
}

/// How two pointers are compared for equality alone (5.10).
pub(crate) fn equality(op: BinaryOp) -> Option<PointerOperator>
    ensures { result ≡ binary.equality op }
{
    match op {
        BinaryOp::Equal => Some(PointerOperator::Equal),
        BinaryOp::NotEqual => Some(PointerOperator::NotEqual),
        _ => None,
    }
}

/// How an integer behind a pointer moves it (5.7).
pub(crate) fn add_or_subtract(op: BinaryOp) -> Option<PointerOperator>
    ensures { result ≡ binary.add_or_subtract op }
{
    match op {
        BinaryOp::Add => Some(PointerOperator::Add),
        BinaryOp::Subtract => Some(PointerOperator::Subtract),
        _ => None,
    }
}
