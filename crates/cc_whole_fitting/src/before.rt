//! What stands before a token.

ghost use Rattle.std.specs.Prelude.{◌≡◌};
ghost use Rattle.cc_whole_fitting.specs.Numbers as spec;

use cc_whole_tokens::{Mark, Token};

/// What stands before a token, as far as it decides whether a `-` there is the sign of a number.
#[derive(Clone, Copy, Debug, PartialEq, Eq)]
pub enum Before {
    /// An operand ends: a `-` is an operator.
    Operand,
    /// A word of a type, or a `*` that joins no operands: a `)` ends no operand.
    Word,
    /// The sign of a number.
    Sign,
    /// Anything else, or nothing.
    Other,
}

fn behind_paren(before: Before) -> Before
    ensures { result ≡ spec.behind_paren before }
{
    match before {
        Before::Word => Before::Other,
        Before::Operand | Before::Sign | Before::Other => Before::Operand,
    }
}

fn behind_star(before: Before) -> Before
    ensures { result ≡ spec.behind_star before }
{
    match before {
        Before::Operand => Before::Other,
        Before::Word | Before::Sign | Before::Other => Before::Word,
    }
}

fn behind_dash(before: Before) -> Before
    ensures { result ≡ spec.behind_dash before }
{
    match before {
        Before::Operand => Before::Other,
        Before::Word | Before::Sign | Before::Other => Before::Sign,
    }
}

fn behind_mark(mark: Mark, before: Before) -> Before
    ensures { result ≡ spec.behind_mark mark before }
{
    match mark {
        Mark::RightParen => behind_paren(before),
        Mark::Star => behind_star(before),
        Mark::Char | Mark::Short | Mark::Int | Mark::Unsigned | Mark::FunctionPointer => {
            Before::Word
        }
        _ => Before::Other,
    }
}

/// What stands before the next token, behind this one.
pub fn behind(token: &Token, before: Before) -> Before
    ensures { result ≡ spec.behind token.now before }
{
    match token {
        Token::Mark(mark) => behind_mark(*mark, before),
        Token::Dash => behind_dash(before),
        Token::Name(_) | Token::Signed(_) | Token::Unsigned(_) => Before::Operand,
        Token::Text(_) | Token::Shared => Before::Other,
    }
}
