use crate::mark::Mark;
use cf_base::{Bytes, Name};

/// A token of the whole small C.
#[derive(Debug, Drop)]
pub enum Token {
    Mark(Mark),
    /// A `-` that a digit follows directly: it begins a constant where no operand stands before it.
    Dash,
    Name(Name),
    /// Decimal digits.
    Signed(Bytes),
    /// Decimal digits with a `u` behind them.
    Unsigned(Bytes),
    /// The bytes that a string stands for.
    Text(Bytes),
    /// `#pragma cf_shared`, with a newline behind it.
    Shared,
}
