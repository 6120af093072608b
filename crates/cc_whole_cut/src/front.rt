//! The token at the front of a text, but for strings.

ghost use Rattle.std.specs.Prelude.{◌≡◌, ◌+◌, ◌-◌, ◌==◌, ◌<◌, ◌≤◌, ◌&&◌, nat_eq, length, take, drop, IfOk, Some, None, true};
ghost use Rattle.std.specs.Char.{is_ascii_digit};
ghost use Rattle.std.specs.List.{prefix_len, list_all};
ghost use Rattle.cc_whole_tokens.specs.Token as token;
ghost use Rattle.cc_whole_tokens.specs.Token.{begins};
ghost use Rattle.cc_whole_cut.specs.Front as spec;

use crate::marks::{SIGNS, WORDS};
use cc_whole_tokens::{Mark, Token};
use cf_base::{Items, Memory};
use std::alloc::Global;

/// What a token is, without its bytes.
#[derive(Clone, Copy, Debug)]
pub enum Shape {
    Mark(Mark),
    Dash,
    Name,
    Signed,
    Unsigned,
    Shared,
}

fn is_word_byte(byte: u8) -> bool
    ensures { result ≡ token.is_word_byte byte }
{
    byte.is_ascii_alphanumeric() || byte == b'_'
}

/// How many bytes of a word stand at the front.
fn word_len(text: &[u8]) -> usize
    ensures value { result ≡ prefix_len token.is_word_byte text.now }
    ensures within { result ≤ length text.now }
{
    text.iter().take_while(|byte| is_word_byte(**byte)).count()
}

/// How many digits stand at the front.
fn digits_len(text: &[u8]) -> usize
    ensures value { result ≡ prefix_len is_ascii_digit text.now }
    ensures within { result ≤ length text.now }
{
    text.iter().take_while(|byte| byte.is_ascii_digit()).count()
}

fn begins_word(text: &[u8]) -> bool
    ensures { result ≡ begins token.is_word_byte text.now }
{
    match text {
        [] => false,
        [byte, ..] => is_word_byte(*byte),
    }
}

fn begins_digit(text: &[u8]) -> bool
    ensures { result ≡ begins is_ascii_digit text.now }
{
    match text {
        [] => false,
        [byte, ..] => byte.is_ascii_digit(),
    }
}

/// Whether this byte stands at the front.
pub fn begins_with(text: &[u8], wanted: u8) -> bool
    ensures { result ≡ begins (λ b. b == wanted) text.now }
{
    match text {
        [] => false,
        [byte, ..] => *byte == wanted,
    }
}

/// The bytes from a place on.
pub fn rest_of(text: &[u8], at: usize) -> &[u8]
    requires { at ≤ length text.now }
    ensures { result.now ≡ drop at text.now }
{
    &text[at..]
}

fn sign_at(text: &[u8]) -> Option<Mark>
    ensures { result ≡ spec.sign_at text.now }
{
    SIGNS
        .iter()
        .copied()
        .find(|mark| text.starts_with(mark.text().as_bytes()))
}

fn reserved(word: &[u8]) -> Option<Mark>
    ensures { result ≡ spec.reserved word.now }
{
    WORDS
        .iter()
        .copied()
        .find(|mark| mark.text().as_bytes() == word)
}

fn word_front(text: &[u8]) -> Option<(Shape, usize)>
    ensures { result ≡ spec.word_front (prefix_len token.is_word_byte text.now) text.now }
{
    let len = word_len(text);
    match reserved(&text[..len]) {
        Some(mark) => Some((Shape::Mark(mark), len)),
        None => Some((Shape::Name, len)),
    }
}

fn all_digits(text: &[u8]) -> bool
    ensures { result ≡ list_all is_ascii_digit text.now }
{
    text.iter().all(|byte| byte.is_ascii_digit())
}

/// 0 stands not first, or alone.
fn is_plain(text: &[u8]) -> bool
    ensures { result ≡ token.is_plain text.now }
{
    !begins_with(text, b'0') || text.len() == 1
}

fn is_numeral(text: &[u8]) -> bool
    ensures { result ≡ token.is_numeral text.now }
{
    begins_digit(text) && all_digits(text) && is_plain(text)
}

/// A `u` that no word goes on behind.
fn is_suffix(text: &[u8]) -> bool
    ensures { result ≡ spec.is_suffix text.now }
{
    begins_with(text, b'u') && !begins_word(rest_of(text, 1))
}

fn number_front(text: &[u8]) -> Option<(Shape, usize)>
    ensures { result ≡ spec.number_front (prefix_len is_ascii_digit text.now) text.now }
{
    let len = digits_len(text);
    let behind = rest_of(text, len);
    if !is_numeral(&text[..len]) {
        None
    } else if !begins_word(behind) {
        Some((Shape::Signed, len))
    } else if is_suffix(behind) {
        Some((Shape::Unsigned, len + 1))
    } else {
        None
    }
}

fn spaces_len(text: &[u8]) -> usize
    ensures value { result ≡ prefix_len spec.is_space text.now }
    ensures within { result ≤ length text.now }
{
    text.iter().take_while(|byte| **byte == b' ').count()
}

/// Nothing but spaces stands before a newline.
fn ends_line(text: &[u8]) -> bool
    ensures { result ≡ spec.line_ends text.now }
{
    begins_with(rest_of(text, spaces_len(text)), b'\n')
}

fn is_shared(text: &[u8]) -> bool
    ensures { result ≡ spec.begins_shared text.now }
{
    text.starts_with(b"#pragma cf_shared")
}

fn begins_shared(text: &[u8]) -> bool
    ensures value { result ≡ spec.begins_shared text.now }
    ensures within { result ≡ true → 17 ≤ length text.now }
{
    is_shared(text)
}

/// The line before a shared definition, without its newline.
fn shared_front(text: &[u8]) -> Option<(Shape, usize)>
    ensures { result ≡ spec.shared_front text.now }
{
    if begins_shared(text) && ends_line(&text[17..]) {
        Some((Shape::Shared, 17))
    } else {
        None
    }
}

/// A `-` before a digit.
fn is_dash(text: &[u8]) -> bool
    ensures { result ≡ spec.is_dash text.now }
{
    begins_with(text, b'-') && begins_digit(&text[1..])
}

fn sign_front(text: &[u8]) -> Option<(Shape, usize)>
    ensures { result ≡ spec.sign_shape (spec.sign_at text.now) }
{
    match sign_at(text) {
        Some(mark) => Some((Shape::Mark(mark), mark.text().len())),
        None => None,
    }
}

/// The shape of the token at the front of a text that does not begin with a blank, and its length in bytes. A string has none.
#[tactic(auto, unfolding(crate::specs::Front::front))]
pub fn front(text: &[u8]) -> Option<(Shape, usize)>
    ensures { result ≡ spec.front text.now }
{
    if begins_digit(text) {
        number_front(text)
    } else if begins_word(text) {
        word_front(text)
    } else if begins_with(text, b'#') {
        shared_front(text)
    } else if is_dash(text) {
        Some((Shape::Dash, 1))
    } else {
        sign_front(text)
    }
}

/// The token of a shape with these bytes.
pub fn token_of(alloc: Global, shape: Shape, bytes: &[u8]) -> Result<Token, Memory>
    ensures { IfOk result (λ t. t ≡ spec.token_of shape bytes.now) }
{
    match shape {
        Shape::Mark(mark) => Ok(Token::Mark(mark)),
        Shape::Dash => Ok(Token::Dash),
        Shape::Shared => Ok(Token::Shared),
        Shape::Name => Ok(Token::Name(Items::from_slice(alloc, bytes)?)),
        Shape::Signed => Ok(Token::Signed(Items::from_slice(alloc, bytes)?)),
        Shape::Unsigned => Ok(Token::Unsigned(Items::from_slice(alloc, without_last(bytes))?)),
    }
}

fn without_last(bytes: &[u8]) -> &[u8]
    ensures { result.now ≡ take (length bytes.now - 1) bytes.now }
{
    &bytes[..bytes.len().saturating_sub(1)]
}
