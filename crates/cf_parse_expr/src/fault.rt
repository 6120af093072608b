ghost use Rattle.std.specs.Prelude.{◌≡◌, ◌+◌, ◌<◌, ◌^◌, ◌↔◌, IsTrue};
ghost use Rattle.cf_parse_expr.specs.Answers.{end_of, place_at, outside};

use cf_base::{Broken, Rule};
use cf_tokens::Token;
use thiserror::Error;

/// Why no phrase is read at a place.
#[derive(Clone, Copy, Debug, PartialEq, Eq, Error)]
pub enum ExprFault {
    /// None begins there: the rule that tokens are in the grammar is broken.
    #[error("rule {} broken at byte {}", .0.rule.number(), .0.at)]
    Broken(Broken),
    /// Want of memory.
    #[error("out of memory")]
    Memory,
}

/// The end of the last token in bytes, and 0 where there is none.
fn end_of(tokens: &[Token]) -> u32
    requires { end_of tokens.now < 2 ^ 32 }
    ensures { result ≡ end_of tokens.now }
{
    match tokens.last() {
        Some(last) => last.at + last.len,
        None => 0,
    }
}

/// Whether so many bytes from a place on end at a place that a number of a place can hold.
fn fits(at: u32, len: u32) -> bool
    ensures { IsTrue result ↔ (at + len < 2 ^ 32) }
{
    u64::from(at) + u64::from(len) < 1 << 32
}

/// Whether the last token ends at a place that a number of a place can hold.
pub fn ends_in_range(tokens: &[Token]) -> bool
    ensures { IsTrue result ↔ (end_of tokens.now < 2 ^ 32) }
{
    match tokens.last() {
        Some(last) => fits(last.at, last.len),
        None => true,
    }
}

/// The place of the token of this number, and the end of the last one where there are not so many.
fn place_at(tokens: &[Token], at: usize) -> u32
    requires { end_of tokens.now < 2 ^ 32 }
    ensures { result ≡ place_at tokens.now at }
{
    match tokens.get(at) {
        Some(token) => token.at,
        None => end_of(tokens),
    }
}

/// The tokens from this number on are outside the grammar.
pub fn outside_at(tokens: &[Token], at: usize) -> Broken
    requires { end_of tokens.now < 2 ^ 32 }
    ensures { result ≡ outside (place_at tokens.now at) }
{
    Broken {
        rule: Rule::new(6),
        at: place_at(tokens, at),
    }
}
