//! Where definitions begin (7.2, 9).

ghost use Rattle.std.specs.Prelude.{◌≡◌};
ghost use Rattle.cf_unit.specs.Declarations as rule;

use cf_parse_expr::Cursor;
use cf_parse_expr::words::{CLASS, COLON, ENUM, LEFT_BRACE, STRUCT};

/// Whether this word stands behind the first one, or behind a name that stands there.
fn behind_key(word: u16, c: &Cursor<'_>) -> bool
    ensures { result ≡ rule.behind_key word c.now }
{
    if c.second() == word {
        return true;
    }
    if c.second_ident().is_none() {
        return false;
    }
    let mut ahead = Cursor::new(c.rest());
    ahead.skip_two();
    ahead.front() == word
}

/// Whether a class is defined here (9).
pub fn begins_class(c: &Cursor<'_>) -> bool
    ensures { result ≡ rule.begins_class c.now }
{
    let front = c.front();
    if front != CLASS && front != STRUCT {
        return false;
    }
    behind_key(LEFT_BRACE, c) || behind_key(COLON, c)
}

/// Whether an enumeration is defined here (7.2).
pub fn begins_enumeration(c: &Cursor<'_>) -> bool
    ensures { result ≡ rule.begins_enumeration c.now }
{
    c.front() == ENUM && behind_key(LEFT_BRACE, c)
}
