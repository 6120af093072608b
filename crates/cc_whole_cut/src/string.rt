//! What stands between the quotes of a string.

ghost use Rattle.std.specs.Prelude.{◌≡◌, ◌+◌, ◌-◌, ◌*◌, ◌≤◌, ◌<◌, ◌==◌, get_or, length, drop, [], IfOk};
ghost use Rattle.cc_whole_tokens.specs.Cut as cut;
ghost use Rattle.cc_whole_tokens.specs.Token.{begins};
ghost use Rattle.cc_whole_cut.specs.Inside as spec;

use crate::front::{begins_with, rest_of};
use cf_base::{Bytes, Items, Memory};
use std::alloc::Global;

/// What stands at the front of the rest of a string.
#[derive(Clone, Copy, Debug)]
pub enum Piece {
    /// The closing quote.
    Close,
    /// A byte of the string, and by how many bytes it is spelled.
    Byte(u8, usize),
    /// Nothing that a string may have.
    Stray,
}

fn is_itself(byte: u8) -> bool
    ensures { result ≡ cut.is_itself byte }
{
    (byte > 31 && byte < 127) && (byte != b'"' && byte != b'\\')
}

fn begins_itself(text: &[u8]) -> bool
    ensures { result ≡ begins cut.is_itself text.now }
{
    match text {
        [] => false,
        [byte, ..] => is_itself(*byte),
    }
}

fn is_octal(byte: u8) -> bool
    ensures { result ≡ cut.is_octal byte }
{
    byte > 47 && byte < 56
}

/// The byte at a place, or 0 where there is none.
fn byte_at(text: &[u8], at: usize) -> u8
    ensures { result ≡ get_or text.now at 0 }
{
    match text.get(at) {
        Some(byte) => *byte,
        None => 0,
    }
}

fn octal_value(x: u8, y: u8, z: u8) -> u32
    ensures { result ≡ cut.octal_value x y z }
{
    64 * u32::from(x.saturating_sub(48))
        + (8 * u32::from(y.saturating_sub(48)) + u32::from(z.saturating_sub(48)))
}

/// Whether a backslash and three octal digits stand at the front.
fn begins_escape(text: &[u8]) -> bool
    ensures { result ≡ spec.begins_escape text.now }
{
    byte_at(text, 0) == b'\\'
        && (is_octal(byte_at(text, 1))
            && (is_octal(byte_at(text, 2)) && is_octal(byte_at(text, 3))))
}

/// The byte that a backslash and three octal digits stand for.
fn escaped(text: &[u8]) -> Option<u8>
    ensures { result ≡ spec.escaped text.now }
{
    let value = octal_value(byte_at(text, 1), byte_at(text, 2), byte_at(text, 3));
    if begins_escape(text) && value < 256 {
        Some(value as u8)
    } else {
        None
    }
}

fn escape(text: &[u8]) -> Piece
    ensures { result ≡ spec.escape (spec.escaped text.now) }
{
    match escaped(text) {
        Some(byte) => Piece::Byte(byte, 4),
        None => Piece::Stray,
    }
}

fn front_piece(text: &[u8]) -> Piece
    ensures { result ≡ spec.next_piece text.now }
{
    if begins_with(text, b'"') {
        Piece::Close
    } else if begins_itself(text) {
        Piece::Byte(byte_at(text, 0), 1)
    } else {
        escape(text)
    }
}

fn next_piece(text: &[u8]) -> Piece
    ensures value { result ≡ spec.next_piece text.now }
    ensures within { spec.spelled_by result ≤ length text.now }
{
    front_piece(text)
}

/// The bytes of the string whose opening quote stands before this text, and by how many bytes they are spelled.
/// None, where no string stands there.
pub fn inside(alloc: Global, text: &[u8]) -> Result<Option<(Bytes, usize)>, Memory>
    ensures { IfOk result (λ r. r ≡ spec.inside (length text.now) [] 0 text.now) }
{
    let mut bytes = Items::new(alloc);
    let mut len = 0;
    let mut rest = text;
    for _turn in 0..text.len() {
        match next_piece(rest) {
            Piece::Close => return Ok(Some((bytes, len))),
            Piece::Stray => return Ok(None),
            Piece::Byte(byte, by) => {
                bytes.push(byte)?;
                len += by;
                rest = rest_of(rest, by);
            }
        }
    }
    Ok(None)
}
