//! The token at the front of a text.

ghost use Rattle.std.specs.Prelude.{◌≡◌, ◌≤◌, ◌<◌, length, drop, IfOk, IfSome, []};
ghost use Rattle.cc_whole_cut.specs.First as spec;
ghost use Rattle.cc_whole_cut.specs.Front as fronts;
ghost use Rattle.cc_whole_cut.specs.Inside as strings;

use crate::front::{Shape, begins_with, front, token_of};
use crate::string::inside;
use cc_whole_tokens::Token;
use cf_base::{Bytes, Memory};
use std::alloc::Global;

fn without_first(text: &[u8]) -> &[u8]
    ensures { result.now ≡ drop 1 text.now }
{
    match text {
        [] => text,
        [_, rest @ ..] => rest,
    }
}

/// What stands between the quotes, behind the opening one.
fn inside_quotes(alloc: Global, text: &[u8]) -> Result<Option<(Bytes, usize)>, Memory>
    ensures value { IfOk result (λ r. r ≡ strings.inside (length text.now) [] 0 text.now) }
    ensures within { IfOk result (λ r. IfSome r (λ q. q.1 < length text.now)) }
{
    inside(alloc, text)
}

fn string(alloc: Global, text: &[u8]) -> Result<Option<(Token, usize)>, Memory>
    ensures { IfOk result (λ r. r ≡ spec.string (strings.inside (length (drop 1 text.now)) [] 0 (drop 1 text.now))) }
{
    match inside_quotes(alloc, without_first(text))? {
        None => Ok(None),
        Some((bytes, len)) => Ok(Some((Token::Text(bytes), len + 2))),
    }
}

fn next_shape(text: &[u8]) -> Option<(Shape, usize)>
    ensures value { result ≡ fronts.front text.now }
    ensures within { IfSome result (λ q. q.1 ≤ length text.now) }
{
    front(text)
}

fn shaped(alloc: Global, text: &[u8]) -> Result<Option<(Token, usize)>, Memory>
    ensures { IfOk result (λ r. r ≡ spec.shaped (fronts.front text.now) text.now) }
{
    match next_shape(text) {
        None => Ok(None),
        Some((shape, len)) => Ok(Some((token_of(alloc, shape, &text[..len])?, len))),
    }
}

/// The token at the front of a text that does not begin with a blank, and its length in bytes.
#[tactic(auto, unfolding(crate::specs::First::first))]
pub fn first(alloc: Global, text: &[u8]) -> Result<Option<(Token, usize)>, Memory>
    ensures { IfOk result (λ r. r ≡ spec.first text.now) }
{
    if begins_with(text, b'"') {
        string(alloc, text)
    } else {
        shaped(alloc, text)
    }
}
