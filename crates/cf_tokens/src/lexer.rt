ghost use Rattle.std.specs.Prelude.{◌≡◌, ◌<◌, ◌≤◌, length, vec_len, MatchResult, IfOk, OnOk, Ok, Err, All};
ghost use Rattle.cf_tokens.specs.Cutting.{Steps, Stops, CutsTo};
ghost use Rattle.cf_tokens.specs.Lex.{Lex, IsFault, IsInside, starts_line, most_bytes, most_tokens};

use crate::character::byte_at;
use crate::fault::LexFault;
use crate::front::front;
use crate::gap::rest_of;
use crate::join::add;
use crate::piece::Piece;
use crate::token::Token;
use cf_base::{Bound, Broken, Limit};
use std::alloc::Global;

const MOST_BYTES: u64 = 1 << 20;

const MOST_TOKENS: u64 = 200_000;

/// The tokens of a file (chapter 2), each with its place and its length in bytes.
///
/// Blanks, comments, marker lines and tokens cut the text exactly, and no token could have been longer. Where
/// that can't be, the fault is the first broken rule of K1 to K5 and K7 in text order. The limit of bytes comes
/// before these, the limit of tokens behind them.
pub fn tokens(alloc: Global, text: &[u8]) -> Result<Vec<Token>, LexFault>
    ensures answer { MatchResult result (λ found. Lex text.now (Ok found.items)) (λ fault. IsFault text.now fault) }

    // What callers need of a list: how long it and the text are, and that each token ends in the text.
    ensures short { OnOk result (length text.now ≤ most_bytes) }
    ensures few { IfOk result (λ found. vec_len found ≤ most_tokens) }
    ensures inside { IfOk result (λ found. All (IsInside text.now) found.items) }
{
    if text.len() as u64 > MOST_BYTES {
        return Err(LexFault::Limit(Limit {
            bound: Bound::Bytes,
            most: MOST_BYTES,
        }));
    }
    let found = cut(alloc, text)?;
    if found.len() as u64 > MOST_TOKENS {
        return Err(LexFault::Limit(Limit {
            bound: Bound::Tokens,
            most: MOST_TOKENS,
        }));
    }
    Ok(found)
}

/// The tokens of a text within the limit of bytes, or its first broken rule.
fn cut(alloc: Global, text: &[u8]) -> Result<Vec<Token>, LexFault>
    requires { length text.now ≤ most_bytes }
    ensures { MatchResult result (λ found. CutsTo text.now found.items) (λ fault. Stops text.now 0 fault) }
{
    let mut found = Vec::new(alloc);
    let mut at = 0usize;
    while at < text.len() {
        at = step(alloc, text, at, &mut found)?;
    }
    Ok(found)
}

/// Goes over the piece at a place, and puts its token behind those that were found, if it is one. Gives the place behind it.
fn step(alloc: Global, text: &[u8], at: usize, found: &mut Vec<Token>) -> Result<usize, LexFault>
    requires short { length text.now ≤ most_bytes }
    requires inside { at < length text.now }
    ensures { MatchResult result (Steps text.now at found.old.items found.new.items) (Stops text.now at) }
{
    match front(alloc, starts_line(text, at), rest_of(text, at))? {
        Piece::Gap(n) => Ok(at + n),
        Piece::Whole(word, n) => {
            let token = Token {
                word,
                at: at as u32,
                len: n as u32,
            };
            add(found, token)?;
            Ok(at + n)
        }
        Piece::Flaw(rule) => {
            let place = at as u32;
            Err(LexFault::Broken(Broken { rule, at: place }))
        }
    }
}

/// Whether the byte at a place is the first of its line.
fn starts_line(text: &[u8], at: usize) -> bool
    ensures { result ≡ starts_line text.now at }
{
    at == 0 || byte_at(text, at - 1) == b'\n'
}
