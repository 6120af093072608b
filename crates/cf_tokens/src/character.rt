ghost use Rattle.std.specs.Prelude.{◌≡◌, ◌≤◌, ◌+◌, take, get_or, length, pos, IfSome};
ghost use Rattle.cf_base.specs.Integers.{convert};
ghost use Rattle.cf_base.specs.declared.kind.Kind.TheVariants.{Char};
ghost use Rattle.cf_tokens.specs.Piece.{IsWithin};
ghost use Rattle.cf_tokens.specs.Character.{simple_escape, with_length, escape_at, unit_at, character};

use crate::class::Class;
use crate::gap::rest_of;
use crate::number::number_within;
use crate::piece::Piece;
use crate::token::Word;
use cf_base::Rule;

/// The piece that begins with `'` (2.5.2).
#[tactic(auto, unfolding(crate::specs::Character::character))]
pub(crate) fn character(text: &[u8]) -> Piece
    requires { 1 ≤ length text.now }
    ensures piece { result ≡ character text.now }
    ensures within { IsWithin (length text.now) result }
{
    let first = byte_at(text, 1);
    if first == b'\'' || first > 127 {
        return Piece::Flaw(Rule::new(5));
    }
    match unit_at(rest_of(text, 1)) {
        Some((value, n)) if byte_at(text, n + 1) == b'\'' => Piece::Whole(
            Word::Char(char_of(value)),
            n + 2,
        ),
        _ => Piece::Flaw(Rule::new(5)),
    }
}

/// The byte at an index, and 0 where there is none.
pub(crate) fn byte_at(bytes: &[u8], index: usize) -> u8
    ensures byte { result ≡ get_or bytes.now index 0 }
    ensures within { 1 ≤ result → index + 1 ≤ length bytes.now }
{
    match bytes.get(index) {
        Some(byte) => *byte,
        None => 0,
    }
}

/// The value of a `char`, which is signed.
fn char_of(value: u8) -> i8
    ensures { result ≡ convert Char (pos value) }
{
    if value < 128 {
        value as i8
    } else {
        (i16::from(value) - 256) as i8
    }
}

/// The value of the character at the front, and how many bytes spell it (2.5.2).
#[tactic(auto, unfolding(crate::specs::Character::unit_at))]
pub(crate) fn unit_at(bytes: &[u8]) -> Option<(u8, usize)>
    ensures unit { result ≡ unit_at bytes.now }
    ensures some { IfSome result (λ unit. 1 ≤ unit.1) }
    ensures within { IfSome result (λ unit. unit.1 ≤ length bytes.now) }
{
    match bytes {
        [] | [b'\n', ..] => None,
        [b'\\', behind @ ..] => escape_at(behind),
        [byte, ..] => Some((*byte, 1)),
    }
}

/// The value of an escape, by the bytes behind its backslash.
#[tactic(auto, unfolding(crate::specs::Character::escape_at))]
fn escape_at(bytes: &[u8]) -> Option<(u8, usize)>
    ensures unit { result ≡ escape_at bytes.now }
    ensures some { IfSome result (λ unit. 1 ≤ unit.1) }
    ensures within { IfSome result (λ unit. unit.1 ≤ 1 + length bytes.now) }
{
    match bytes {
        [] => None,
        [b'x', behind @ ..] => {
            let digits = Class::HexDigit.leading(behind);
            with_length(2 + digits.len(), number_within(255, 16, digits))
        }
        [b'0'..=b'7', ..] => {
            let digits = at_most(3, Class::OctalDigit.leading(bytes));
            with_length(1 + digits.len(), number_within(255, 8, digits))
        }
        [letter, ..] => with_length(2, simple_escape(*letter)),
    }
}

/// The first bytes, as many as there are up to `n`.
pub(crate) fn at_most(n: usize, bytes: &[u8]) -> &[u8]
    ensures bytes { result.now ≡ take n bytes.now }
    ensures within { length result.now ≤ length bytes.now }
    ensures some { 1 ≤ n → 1 ≤ length bytes.now → 1 ≤ length result.now }
{
    if n < bytes.len() { &bytes[..n] } else { bytes }
}

fn with_length(n: usize, value: Option<u32>) -> Option<(u8, usize)>
    requires { IfSome value (λ value. value ≤ 255) }
    ensures unit { result ≡ with_length n value }
    ensures length { IfSome result (λ unit. unit.1 ≡ n) }
{
    match value {
        Some(value) => Some((value as u8, n)),
        None => None,
    }
}

/// What the letter of a simple escape stands for.
fn simple_escape(letter: u8) -> Option<u32>
    ensures value { result ≡ simple_escape letter }
    ensures small { IfSome result (λ value. value ≤ 255) }
{
    match letter {
        b'n' => Some(10),
        b't' => Some(9),
        b'v' => Some(11),
        b'b' => Some(8),
        b'r' => Some(13),
        b'f' => Some(12),
        b'a' => Some(7),
        b'\\' | b'?' | b'\'' | b'"' => Some(u32::from(letter)),
        _ => None,
    }
}
