//! Operators by the numbers of their words (5.3 to 5.17).

ghost use Rattle.std.specs.Prelude.{◌≡◌, ◌∷◌, []};
ghost use Rattle.cf_syntax.specs.Operators.{level, assigning, prefixing, stepping, operator_of};
ghost use Rattle.cf_parse_expr.specs.Reads.{Reads};
ghost use Rattle.cf_parse_expr.specs.Leaves.{step_operator, prefix_operator, assign_operator, binary_operator};

use crate::cursor::Cursor;
use crate::stop::Stop;
use cf_syntax::{AssignOp, BinaryOp, PrefixOp, StepOp};

/// `++` or `--`, by the number of its word.
pub fn step_of(code: u16) -> Option<StepOp>
    ensures { result ≡ operator_of stepping code }
{
    match code {
        37 => Some(StepOp::Increment),
        38 => Some(StepOp::Decrement),
        _ => None,
    }
}

/// A unary operator, by the number of its word.
pub fn prefix_of(code: u16) -> Option<PrefixOp>
    ensures { result ≡ operator_of prefixing code }
{
    match code {
        20 => Some(PrefixOp::Dereference),
        23 => Some(PrefixOp::AddressOf),
        18 => Some(PrefixOp::Plus),
        19 => Some(PrefixOp::Minus),
        17 => Some(PrefixOp::Not),
        16 => Some(PrefixOp::Complement),
        _ => None,
    }
}

/// An assignment operator, by the number of its word.
pub fn assign_of(code: u16) -> Option<AssignOp>
    ensures { result ≡ operator_of assigning code }
{
    match code {
        28 => Some(AssignOp::Assign),
        39 => Some(AssignOp::Add),
        40 => Some(AssignOp::Subtract),
        41 => Some(AssignOp::Multiply),
        42 => Some(AssignOp::Divide),
        43 => Some(AssignOp::Remainder),
        44 => Some(AssignOp::BitAnd),
        45 => Some(AssignOp::BitOr),
        46 => Some(AssignOp::BitXor),
        47 => Some(AssignOp::ShiftLeft),
        48 => Some(AssignOp::ShiftRight),
        _ => None,
    }
}

fn member_of(code: u16) -> Option<BinaryOp>
    ensures { result ≡ operator_of (level 0) code }
{
    match code {
        12 => Some(BinaryOp::DotStar),
        14 => Some(BinaryOp::ArrowStar),
        _ => None,
    }
}

fn product_of(code: u16) -> Option<BinaryOp>
    ensures { result ≡ operator_of (level 1) code }
{
    match code {
        20 => Some(BinaryOp::Multiply),
        21 => Some(BinaryOp::Divide),
        22 => Some(BinaryOp::Remainder),
        _ => None,
    }
}

fn sum_of(code: u16) -> Option<BinaryOp>
    ensures { result ≡ operator_of (level 2) code }
{
    match code {
        18 => Some(BinaryOp::Add),
        19 => Some(BinaryOp::Subtract),
        _ => None,
    }
}

fn shift_of(code: u16) -> Option<BinaryOp>
    ensures { result ≡ operator_of (level 3) code }
{
    match code {
        35 => Some(BinaryOp::ShiftLeft),
        36 => Some(BinaryOp::ShiftRight),
        _ => None,
    }
}

fn order_of(code: u16) -> Option<BinaryOp>
    ensures { result ≡ operator_of (level 4) code }
{
    match code {
        26 => Some(BinaryOp::Less),
        27 => Some(BinaryOp::Greater),
        31 => Some(BinaryOp::LessEqual),
        32 => Some(BinaryOp::GreaterEqual),
        _ => None,
    }
}

fn equality_of(code: u16) -> Option<BinaryOp>
    ensures { result ≡ operator_of (level 5) code }
{
    match code {
        29 => Some(BinaryOp::Equal),
        30 => Some(BinaryOp::NotEqual),
        _ => None,
    }
}

/// The operator, where the word is the one of this number.
fn only(code: u16, number: u16, op: BinaryOp) -> Option<BinaryOp>
    ensures { result ≡ operator_of ((number, op) ∷ []) code }
{
    if code == number { Some(op) } else { None }
}

/// A binary operator of a level, counted from the tightest, by the number of its word.
pub fn binary_of(tightness: u8, code: u16) -> Option<BinaryOp>
    ensures { result ≡ operator_of (level tightness) code }
{
    match tightness {
        0 => member_of(code),
        1 => product_of(code),
        2 => sum_of(code),
        3 => shift_of(code),
        4 => order_of(code),
        5 => equality_of(code),
        6 => only(code, 23, BinaryOp::BitAnd),
        7 => only(code, 25, BinaryOp::BitXor),
        8 => only(code, 24, BinaryOp::BitOr),
        9 => only(code, 33, BinaryOp::LogicalAnd),
        _ => only(code, 34, BinaryOp::LogicalOr),
    }
}

/// `++` or `--`, with its place.
#[tactic(auto, unfolding(crate::specs::Leaves::step_operator))]
pub fn step_operator(c: &mut Cursor<'_>) -> Result<(u32, StepOp), Stop>
    ensures { Reads (step_operator c.old) result c.new }
{
    let at = c.place();
    match step_of(c.front()) {
        Some(op) => {
            c.skip();
            Ok((at, op))
        }
        None => Err(Stop::Nothing),
    }
}

/// A unary operator, with its place.
#[tactic(auto, unfolding(crate::specs::Leaves::prefix_operator))]
pub fn prefix_operator(c: &mut Cursor<'_>) -> Result<(u32, PrefixOp), Stop>
    ensures { Reads (prefix_operator c.old) result c.new }
{
    let at = c.place();
    match prefix_of(c.front()) {
        Some(op) => {
            c.skip();
            Ok((at, op))
        }
        None => Err(Stop::Nothing),
    }
}

/// An assignment operator, with its place.
#[tactic(auto, unfolding(crate::specs::Leaves::assign_operator))]
pub fn assign_operator(c: &mut Cursor<'_>) -> Result<(u32, AssignOp), Stop>
    ensures { Reads (assign_operator c.old) result c.new }
{
    let at = c.place();
    match assign_of(c.front()) {
        Some(op) => {
            c.skip();
            Ok((at, op))
        }
        None => Err(Stop::Nothing),
    }
}

/// A binary operator of a level, with its place.
#[tactic(auto, unfolding(crate::specs::Leaves::binary_operator))]
pub fn binary_operator(c: &mut Cursor<'_>, tightness: u8) -> Result<(u32, BinaryOp), Stop>
    ensures { Reads (binary_operator tightness c.old) result c.new }
{
    let at = c.place();
    match binary_of(tightness, c.front()) {
        Some(op) => {
            c.skip();
            Ok((at, op))
        }
        None => Err(Stop::Nothing),
    }
}
