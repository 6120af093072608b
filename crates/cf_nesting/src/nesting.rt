//! What the nesting and the brackets of a file are.

ghost use Rattle.std.specs.Prelude.{◌≡◌, IfOk};
ghost use Rattle.cf_nesting.specs.Found.{found_in};

use crate::levels::Levels;
use cf_base::Memory;
use cf_parse_expr::Cursor;
use cf_parse_expr::words::ELSE;
use cf_tokens::Token;
use std::alloc::Global;

/// What is to be said of a file before the grammar is asked.
#[derive(Clone, Copy, Debug, PartialEq, Eq)]
pub enum Nesting {
    /// The nesting at some token passes the limit.
    TooDeep,
    /// The first bracket without a partner stands at this place.
    Unmatched(u32),
    /// Each bracket has its partner.
    Matched,
}

/// What the nesting and the brackets of these tokens are.
pub fn nesting_of(alloc: Global, tokens: &[Token]) -> Result<Nesting, Memory>
    ensures { IfOk result (λ found. found ≡ found_in tokens.now) }
{
    let mut levels = Levels::new(alloc);
    let mut rest = tokens;
    while let [token, behind @ ..] = rest {
        let word = Cursor::new(rest).front();
        let before_else = Cursor::new(behind).front() == ELSE;
        levels.take(word, token.at, before_else)?;
        if levels.exceeds() {
            return Ok(Nesting::TooDeep);
        }
        rest = behind;
    }
    match levels.unmatched() {
        Some(at) => Ok(Nesting::Unmatched(at)),
        None => Ok(Nesting::Matched),
    }
}
