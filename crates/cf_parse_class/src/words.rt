//! Words of members by number: signs by their own numbers, keywords from 64 on.

ghost use Rattle.cf_parse_expr.specs.Reads.{Reads};
ghost use Rattle.cf_parse_class.specs.Parts as spec;
ghost use Rattle.cf_unit.specs.Members as unit;
ghost use Rattle.cf_unit.specs.Declarations as rules;
ghost use Rattle.cf_unit.specs.Read.{reading};
ghost use Rattle.cf_unit.specs.Pieces.{zero_constant};
ghost use Rattle.cf_unit.specs.Pieces as pieces;
ghost use Rattle.std.specs.Prelude.{◌≡◌, ◌&&◌, nat_eq};

use cf_base::Bytes;
use cf_parse_expr::words::{CLASS, EQUALS, PRIVATE, PROTECTED, PUBLIC};
use cf_parse_expr::{Cursor, Stop};
use cf_syntax::ClassKey;
use cf_tokens::{Token, Word};
use cf_unit::Access;
use std::alloc::Global;

/// The word of access that comes next, with its place (11.1).
pub fn access_word(c: &mut Cursor<'_>) -> Result<(u32, Access), Stop>
    ensures { Reads (unit.access_word c.old) result c.new }
{
    let front = c.front();
    let access = if front == PUBLIC {
        Access::Public
    } else if front == PROTECTED {
        Access::Protected
    } else if front == PRIVATE {
        Access::Private
    } else {
        return Err(Stop::Nothing);
    };
    let at = c.place();
    c.skip();
    Ok((at, access))
}

/// Whether the token is the constant `0` of one byte.
fn is_zero(token: &Token) -> bool
    ensures { result ≡ (nat_eq token.now.len 1 && pieces.is_zero token.now.word) }
{
    match &token.word {
        Word::Int { value, .. } => token.len == 1 && *value == 0,
        _ => false,
    }
}

/// The constant `0`, of one byte.
fn zero(c: &mut Cursor<'_>) -> Result<u32, Stop>
    ensures { Reads (zero_constant c.old) result c.new }
{
    match c.rest() {
        [token, behind @ ..] => {
            if !is_zero(token) {
                return Err(Stop::Nothing);
            }
            c.set(behind);
            Ok(token.at)
        }
        [] => Err(Stop::Nothing),
    }
}

/// The place of `=` where `= 0` follows (10.3).
pub fn pure_behind(c: &mut Cursor<'_>) -> Result<Option<u32>, Stop>
    ensures { Reads (reading unit.pure_behind c.old) result c.new }
{
    pure_read(c)
}

#[tactic(auto, unfolding(crate::specs::Parts::pure_behind))]
fn pure_read(c: &mut Cursor<'_>) -> Result<Option<u32>, Stop>
    ensures { Reads (spec.pure_behind c.old) result c.new }
{
    if c.front() == EQUALS {
        let at = c.word(EQUALS)?;
        zero(c)?;
        return Ok(Some(at));
    }
    Ok(None)
}

/// `class` or `struct`, whichever stands there, with its place (9).
#[tactic(auto, unfolding(crate::specs::Parts::class_key))]
pub fn class_key(c: &mut Cursor<'_>) -> Result<(u32, ClassKey), Stop>
    ensures { Reads (spec.class_key c.old) result c.new }
{
    if c.len() == 0 {
        return Err(Stop::Nothing);
    }
    let (front, at) = (c.front(), c.place());
    c.skip();
    if front == CLASS {
        Ok((at, ClassKey::Class))
    } else {
        Ok((at, ClassKey::Struct))
    }
}

/// The identifier that comes next, with its place.
fn identifier(alloc: Global, c: &mut Cursor<'_>) -> Result<(u32, Bytes), Stop>
    ensures { Reads (pieces.identifier c.old) result c.new }
{
    match c.ident() {
        Some(name) => {
            let at = c.place();
            let name = Bytes::from_slice(alloc, name)?;
            c.skip();
            Ok((at, name))
        }
        None => Err(Stop::Nothing),
    }
}

/// The identifier that comes next, if one does.
pub fn maybe_identifier(alloc: Global, c: &mut Cursor<'_>) -> Result<Option<(u32, Bytes)>, Stop>
    ensures { Reads (reading rules.maybe_identifier c.old) result c.new }
{
    identifier_read(alloc, c)
}

#[tactic(auto, unfolding(crate::specs::Parts::maybe_identifier))]
fn identifier_read(alloc: Global, c: &mut Cursor<'_>) -> Result<Option<(u32, Bytes)>, Stop>
    ensures { Reads (spec.maybe_identifier c.old) result c.new }
{
    if c.ident().is_some() {
        let name = identifier(alloc, c)?;
        return Ok(Some(name));
    }
    Ok(None)
}
