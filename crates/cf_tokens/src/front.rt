ghost use Rattle.std.specs.Prelude.{◌≡◌, ◌≤◌, length, IfOk};
ghost use Rattle.cf_tokens.specs.Piece.{IsWithin};
ghost use Rattle.cf_tokens.specs.Front.{front};

use crate::character::{byte_at, character};
use crate::class::Class;
use crate::constant::constant;
use crate::gap::{comment, directive, line_comment};
use crate::literal::literal;
use crate::name::name;
use crate::piece::Piece;
use crate::symbol::symbol;
use cf_base::Memory;
use std::alloc::Global;

/// The piece at the front of a text that isn't empty.
#[tactic(auto, unfolding(crate::specs::Front::front))]
pub(crate) fn front(alloc: Global, starts_line: bool, text: &[u8]) -> Result<Piece, Memory>
    requires { 1 ≤ length text.now }
    ensures piece { IfOk result (λ piece. piece ≡ front starts_line text.now) }
    ensures within { IfOk result (λ piece. IsWithin (length text.now) piece) }
{
    let first = byte_at(text, 0);
    if Class::Blank.has(first) {
        Ok(Piece::Gap(1))
    } else if first == b'#' {
        Ok(directive(starts_line, text))
    } else if Class::Letter.has(first) {
        name(alloc, text)
    } else if Class::Digit.has(first) {
        Ok(constant(text))
    } else if first == b'\'' {
        Ok(character(text))
    } else if first == b'"' {
        literal(alloc, text)
    } else if text.starts_with(b"//") {
        Ok(line_comment(text))
    } else if text.starts_with(b"/*") {
        Ok(comment(text))
    } else {
        Ok(symbol(text))
    }
}
