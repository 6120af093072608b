//! Tests of the tokens by which members and items are told apart.

ghost use Rattle.std.specs.Prelude.{◌≡◌, ◌∷◌, [], cond, drop, false};
ghost use Rattle.cf_syntax.specs.Grammar.{begins, sees};
ghost use Rattle.cf_unit.specs.Declarations.{begins_class, behind_key};
ghost use Rattle.cf_unit.specs.Pieces as pieces;

use cf_parse_expr::Cursor;
use cf_parse_expr::words::{ACCESS, COLON, EXTERN, LEFT_BRACE, TEXT, begins};

/// `class` and `struct`
const CLASS_KEYS: [u16; 2] = [70, 99];

/// Whether a class's name, if it has one, and this word follow its key.
fn behind_key(c: &Cursor<'_>, word: u16) -> bool
    ensures { result ≡ behind_key word c.now }
{
    if c.second() == word {
        return true;
    }
    if c.second_ident().is_none() {
        return false;
    }
    let mut ahead = Cursor::new(c.rest());
    ahead.skip_two();
    ahead.front() == word
}

/// Whether a class is defined here (9).
pub fn begins_class(c: &Cursor<'_>) -> bool
    ensures { result ≡ begins_class c.now }
{
    if !begins(&CLASS_KEYS, c) {
        return false;
    }
    behind_key(c, LEFT_BRACE) || behind_key(c, COLON)
}

/// Whether a linkage specification stands here (7.4).
pub fn begins_linkage(c: &Cursor<'_>) -> bool
    ensures { result ≡ cond (sees pieces.extern_word c.now) (sees 131 (drop 1 c.now)) false }
{
    c.front() == EXTERN && c.second() == TEXT
}

/// Whether a word of access stands here (11.1).
pub fn begins_access(c: &Cursor<'_>) -> bool
    ensures { result ≡ begins (pieces.public_word ∷ pieces.protected_word ∷ pieces.private_word ∷ []) c.now }
{
    begins(&ACCESS, c)
}
