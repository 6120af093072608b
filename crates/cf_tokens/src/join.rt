ghost use Rattle.std.specs.Prelude.{◌≡◌, ◌<◌, ◌+◌, ◌^◌, ◌++◌, OnOk, IfOk};
ghost use Rattle.cf_tokens.specs.Lex.{add, beside};

use crate::token::{Token, Word};
use cf_base::{Bytes, Memory};

/// Puts a token behind those that were found. A string literal joins the one before it (2.5.4).
pub(crate) fn add(found: &mut Vec<Token>, next: Token) -> Result<(), Memory>
    requires { next.at + next.len < 2 ^ 32 }
    ensures { OnOk result (found.new.items ≡ add found.old.items next) }
{
    match found.pop() {
        None => {
            found.push(next)?;
            Ok(())
        }
        Some(last) => push_beside(found, last, next),
    }
}

fn push_beside(found: &mut Vec<Token>, last: Token, next: Token) -> Result<(), Memory>
    requires { next.at + next.len < 2 ^ 32 }
    ensures { OnOk result (found.new.items ≡ found.old.items ++ beside last next) }
{
    let Token {
        word: last_word,
        at: last_at,
        len: last_len,
    } = last;
    let Token {
        word: next_word,
        at: next_at,
        len: next_len,
    } = next;
    match (last_word, next_word) {
        (Word::Text(bytes), Word::Text(more)) => {
            let word = Word::Text(concat(bytes, more.as_slice())?);
            // A token never begins behind the end of the next.
            let len = (next_at + next_len).saturating_sub(last_at);
            found.push(Token {
                word,
                at: last_at,
                len,
            })?;
            Ok(())
        }
        (last_word, next_word) => {
            found.push(Token {
                word: last_word,
                at: last_at,
                len: last_len,
            })?;
            found.push(Token {
                word: next_word,
                at: next_at,
                len: next_len,
            })?;
            Ok(())
        }
    }
}

/// The bytes of both.
fn concat(bytes: Bytes, more: &[u8]) -> Result<Bytes, Memory>
    ensures { IfOk result (λ all. all ≡ bytes ++ more.now) }
{
    let mut list = bytes.into_vec();
    list.extend_from_slice(more)?;
    Ok(Bytes::from_vec(list))
}
