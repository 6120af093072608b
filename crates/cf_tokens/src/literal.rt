ghost use Rattle.std.specs.Prelude.{◌≡◌, ◌≤◌, length, IfOk, IfSome};
ghost use Rattle.cf_tokens.specs.Piece.{IsWithin};
ghost use Rattle.cf_tokens.specs.Literal.{characters, literal};

use crate::character::{byte_at, unit_at};
use crate::gap::rest_of;
use crate::piece::Piece;
use crate::token::Word;
use cf_base::{Bytes, Memory, Rule};
use std::alloc::Global;

/// The piece that begins with `"` (2.5.4).
#[tactic(auto, unfolding(crate::specs::Literal::literal))]
pub(crate) fn literal(alloc: Global, text: &[u8]) -> Result<Piece, Memory>
    requires { 1 ≤ length text.now }
    ensures piece { IfOk result (λ piece. piece ≡ literal text.now) }
    ensures within { IfOk result (λ piece. IsWithin (length text.now) piece) }
{
    match characters(alloc, rest_of(text, 1))? {
        Some((values, n)) => Ok(Piece::Whole(Word::Text(values), n + 1)),
        None => Ok(Piece::Flaw(Rule::new(5))),
    }
}

/// The values of the characters up to the `"` that ends them, and how many bytes spell them.
fn characters(alloc: Global, bytes: &[u8]) -> Result<Option<(Bytes, usize)>, Memory>
    ensures found { IfOk result (λ found. found ≡ characters (length bytes.now) bytes.now) }
    ensures within { IfOk result (λ found. IfSome found (λ literal. literal.1 ≤ length bytes.now)) }
{
    let mut values = Bytes::new(alloc);
    let mut at = 0usize;
    for _turn in 0..bytes.len() {
        let rest = rest_of(bytes, at);
        if byte_at(rest, 0) == b'"' {
            return Ok(Some((values, at + 1)));
        }
        match unit_at(rest) {
            Some((value, n)) => {
                values.push(value)?;
                at += n;
            }
            None => return Ok(None),
        }
    }
    Ok(None)
}
