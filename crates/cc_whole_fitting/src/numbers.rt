//! Numbers that fit.

ghost use Rattle.std.specs.Prelude.{◌≡◌};
ghost use Rattle.std.specs.Str.Parse.{digits_value};
ghost use Rattle.cc_whole.specs.Numbers.{fits_constant};
ghost use Rattle.cc_whole.specs.declared.types.CConstant.TheVariants as int;
ghost use Rattle.cc_whole_fitting.specs.Numbers as spec;

use crate::before::{Before, behind};
use cc_whole_reading::magnitude;
use cc_whole_tokens::Token;

/// Whether digits fit an int, with a sign before them or without.
fn signed_fits(digits: &[u8], before: Before) -> bool
    ensures { result ≡ fits_constant (spec.signed_at before (digits_value 10 digits.now)) }
{
    match (before, magnitude(digits)) {
        (Before::Sign, Some(value)) => value <= 0x8000_0000,
        (_, Some(value)) => value < 0x8000_0000,
        (_, None) => false,
    }
}

fn unsigned_fits(digits: &[u8]) -> bool
    ensures { result ≡ fits_constant (int.Unsigned (digits_value 10 digits.now)) }
{
    magnitude(digits).is_some()
}

/// Whether a token is no number that does not fit.
pub fn token_fits(token: &Token, before: Before) -> bool
    ensures { result ≡ spec.token_fits token.now before }
{
    match token {
        Token::Signed(digits) => signed_fits(digits.as_slice(), before),
        Token::Unsigned(digits) => unsigned_fits(digits.as_slice()),
        _ => true,
    }
}

/// Whether all numbers of the tokens of some items fit 32 bits, each with its sign.
pub fn numbers_fit(tokens: &[Token]) -> bool
    ensures { result ≡ spec.numbers_fit tokens.now }
{
    let mut before = Before::Other;
    for token in tokens {
        if !token_fits(token, before) {
            return false;
        }
        before = behind(token, before);
    }
    true
}
