ghost use Rattle.std.specs.Prelude.{◌≡◌, ◌≤◌, length};
ghost use Rattle.cf_tokens.specs.Piece.{IsWithin};
ghost use Rattle.cf_tokens.specs.Symbol.{sign_or, symbol};

use crate::character::at_most;
use crate::piece::Piece;
use crate::sign;
use crate::table::index_in;
use crate::token::Word;
use cf_base::Rule;

/// The longest sign at the front (2.1).
#[tactic(auto, unfolding(crate::specs::Symbol::symbol))]
pub(crate) fn symbol(text: &[u8]) -> Piece
    requires { 1 ≤ length text.now }
    ensures piece { result ≡ symbol text.now }
    ensures within { IsWithin (length text.now) result }
{
    let stray = Piece::Flaw(Rule::new(1));
    sign_or(sign_or(sign_or(stray, 1, text), 2, text), 3, text)
}

/// The sign that the first n bytes are, if they are one, and else the other piece.
#[tactic(auto, unfolding(crate::specs::Signs::signs))]
fn sign_or(other: Piece, n: usize, text: &[u8]) -> Piece
    requires some { 1 ≤ length text.now }
    requires counts { 1 ≤ n }
    requires other { IsWithin (length text.now) other }
    ensures piece { result ≡ sign_or other n text.now }
    ensures within { IsWithin (length text.now) result }
{
    let spelling = at_most(n, text);
    match index_in(&sign::SPELLINGS, spelling) {
        Some(number) => Piece::Whole(Word::Sign(number as u8), spelling.len()),
        None => other,
    }
}
