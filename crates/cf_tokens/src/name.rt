ghost use Rattle.std.specs.Prelude.{◌≡◌, ◌≤◌, length, get_or, true, IfOk};
ghost use Rattle.cf_tokens.specs.Piece.{IsWithin};
ghost use Rattle.cf_tokens.specs.Class.{has};
ghost use Rattle.cf_tokens.specs.declared.class.Class.TheVariants.{NameByte};
ghost use Rattle.cf_tokens.specs.Name.{has_double, keyword_of, named, name};
ghost use Rattle.cf_tokens.specs.Keywords.{left_out};
ghost use Rattle.cf_tokens.specs.Table.{stands_in};

use crate::class::Class;
use crate::keyword;
use crate::piece::Piece;
use crate::table::{index_in, stands_in};
use crate::token::Word;
use cf_base::{Bytes, Memory, Rule};
use std::alloc::Global;

const MOST_BYTES: usize = 255;

/// The piece that begins with a letter or `_` (2.3, 2.4).
pub(crate) fn name(alloc: Global, text: &[u8]) -> Result<Piece, Memory>
    requires some { 1 ≤ length text.now }
    requires in_name { has NameByte (get_or text.now 0 0) ≡ true }
    ensures piece { IfOk result (λ piece. piece ≡ name text.now) }
    ensures within { IfOk result (λ piece. IsWithin (length text.now) piece) }
{
    named(alloc, Class::NameByte.leading(text))
}

#[tactic(auto, unfolding(crate::specs::Name::named))]
fn named(alloc: Global, name: &[u8]) -> Result<Piece, Memory>
    requires { 1 ≤ length name.now }
    ensures piece { IfOk result (λ piece. piece ≡ named name.now) }
    ensures within { IfOk result (λ piece. IsWithin (length name.now) piece) }
{
    if name.len() > MOST_BYTES || has_double(name) {
        return Ok(Piece::Flaw(Rule::new(3)));
    }
    match keyword_of(name) {
        Some(_) if is_left_out(name) => Ok(Piece::Flaw(Rule::new(4))),
        Some(keyword) => Ok(Piece::Whole(Word::Keyword(keyword), name.len())),
        None => Ok(Piece::Whole(Word::Ident(Bytes::from_slice(alloc, name)?), name.len())),
    }
}

/// Whether `__` stands in a name.
fn has_double(name: &[u8]) -> bool
    ensures { result ≡ has_double name.now }
{
    let mut rest = name;
    while let [_, behind @ ..] = rest {
        if rest.starts_with(b"__") {
            return true;
        }
        rest = behind;
    }
    false
}

/// The number of the keyword that a name is, if it is one.
#[tactic(auto, unfolding(crate::specs::Keywords::keywords))]
fn keyword_of(name: &[u8]) -> Option<u8>
    ensures { result ≡ keyword_of name.now }
{
    match index_in(&keyword::SPELLINGS, name) {
        Some(index) => Some(index as u8),
        None => None,
    }
}

/// Whether a keyword is outside the profile.
#[tactic(auto, unfolding(crate::specs::Keywords::left_out))]
fn is_left_out(name: &[u8]) -> bool
    ensures { result ≡ stands_in left_out name.now }
{
    stands_in(&LEFT_OUT, name)
}

/// The keywords of floating types, templates, exceptions, `asm`, `goto`, `union` and `volatile`.
const LEFT_OUT: [&str; 10] = [
    "asm", "catch", "double", "float", "goto", "template", "throw", "try", "union", "volatile",
];
