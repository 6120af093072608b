//! Brackets by the numbers of their words.

ghost use Rattle.std.specs.Prelude.{◌≡◌};
ghost use Rattle.cf_unit.specs.Nesting as spec;

use cf_parse_expr::words::{
    COMMA, LEFT_BRACE, LEFT_BRACKET, LEFT_PAREN, RIGHT_BRACE, RIGHT_BRACKET, RIGHT_PAREN, SEMICOLON,
};

/// Whether the word is an opening bracket.
pub fn is_opening(word: u16) -> bool
    ensures { result ≡ spec.is_opening word }
{
    word == LEFT_PAREN || (word == LEFT_BRACKET || word == LEFT_BRACE)
}

/// Whether the word is a closing bracket.
pub fn is_closing(word: u16) -> bool
    ensures { result ≡ spec.is_closing word }
{
    word == RIGHT_PAREN || (word == RIGHT_BRACKET || word == RIGHT_BRACE)
}

/// Whether the second word closes the first.
pub fn is_partner(first: u16, second: u16) -> bool
    ensures { result ≡ spec.is_partner first second }
{
    (first == LEFT_PAREN && second == RIGHT_PAREN)
        || ((first == LEFT_BRACKET && second == RIGHT_BRACKET)
            || (first == LEFT_BRACE && second == RIGHT_BRACE))
}

/// Whether the word resets the level in which it stands.
pub fn resets(word: u16) -> bool
    ensures { result ≡ spec.resets word }
{
    word == SEMICOLON || word == COMMA
}
