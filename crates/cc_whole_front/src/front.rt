ghost use Rattle.std.specs.Prelude.{◌≡◌, ◌+◌, ◌<◌, ◌^◌, ◌++◌, ◌∷◌, [], length, IfOk, OnOk};
ghost use Rattle.cc_whole_front.specs.Front.{IsFront};

use cc_whole_cut::{first_token, rest_of, without_blanks};
use cc_whole_tokens::Token;
use cf_base::Memory;
use std::alloc::Global;

/// The tokens at the front of the end of a text. Places are bytes of the whole text.
#[derive(Debug, Drop)]
pub struct Front {
    pub tokens: Vec<Token>,
    /// The byte at which each token begins.
    pub places: Vec<usize>,
    /// The first byte at which no token begins and no blank stands, or the length of the text.
    pub end: usize,
    /// Whether the text ends there.
    pub is_whole: bool,
}

/// Puts a token behind the others, with its place.
fn add(
    tokens: &mut Vec<Token>,
    places: &mut Vec<usize>,
    token: Token,
    at: usize,
) -> Result<(), Memory>
    ensures tokens { OnOk result (tokens.new.items ≡ tokens.old.items ++ token ∷ []) }
    ensures places { OnOk result (places.new.items ≡ places.old.items ++ at ∷ []) }
{
    tokens.push(token)?;
    places.push(at)?;
    Ok(())
}

/// The tokens with their places at the front of bytes that end a text and stand behind so many others, up to the end or to the first byte at
/// which no token begins.
pub fn front_of(alloc: Global, before: usize, bytes: &[u8]) -> Result<Front, Memory>
    requires { before + length bytes.now < 2 ^ 64 }
    ensures { IfOk result (λ front. IsFront before bytes.now front) }
{
    let mut tokens = Vec::new(alloc);
    let mut places = Vec::new(alloc);
    let mut rest = without_blanks(bytes);
    while !rest.is_empty() {
        let at = before + (bytes.len() - rest.len());
        let found = first_token(alloc, rest)?;
        match found {
            None => {
                return Ok(Front {
                    tokens,
                    places,
                    end: at,
                    is_whole: false,
                });
            }
            Some((token, len)) => {
                add(&mut tokens, &mut places, token, at)?;
                rest = without_blanks(rest_of(rest, len));
            }
        }
    }
    Ok(Front {
        tokens,
        places,
        end: before + bytes.len(),
        is_whole: true,
    })
}
