//! Cutting a text into tokens.

ghost use Rattle.std.specs.Prelude.{◌≡◌, ◌≤◌, ◌<◌, length, drop, MatchResult, IfOk, IfSome, OnOk, ◌++◌, ◌∷◌, []};
ghost use Rattle.std.specs.List.{prefix_len};
ghost use Rattle.cc_whole_tokens.specs.Cut as spec;
ghost use Rattle.cc_whole_tokens.specs.Cut.{Cut};
ghost use Rattle.cc_whole_cut.specs.Stray.{IsStray};
ghost use Rattle.cc_whole_cut.specs.First as firsts;

use crate::first::first;
use crate::front::rest_of;
use cc_whole_tokens::Token;
use cf_base::Memory;
use std::alloc::{AllocFailed, Global};

/// Why a text is not cut.
#[derive(Clone, Copy, Debug, PartialEq, Eq)]
pub enum CutError {
    /// No token begins at this byte.
    Stray { at: usize },
    OutOfMemory,
}

impl From<Memory> for CutError {
    ghost use Rattle.cc_whole_cut.specs.declared.cut.CutError.TheVariants.{OutOfMemory};

    ghost from_gives = { λ _ e. e ≡ OutOfMemory };

    fn from(_error: Memory) -> CutError {
        CutError::OutOfMemory
    }
}

impl From<AllocFailed<usize>> for CutError {
    ghost use Rattle.cc_whole_cut.specs.declared.cut.CutError.TheVariants.{OutOfMemory};

    ghost from_gives = { λ _ e. e ≡ OutOfMemory };

    fn from(_error: AllocFailed<usize>) -> CutError {
        CutError::OutOfMemory
    }
}

/// The tokens of a text, and the byte place of each.
#[derive(Debug, Drop)]
pub struct TokenList {
    pub list: Vec<Token>,
    pub places: Vec<usize>,
}

fn is_blank(byte: u8) -> bool
    ensures { result ≡ spec.is_blank byte }
{
    byte == b' ' || byte == b'\n'
}

fn blanks_len(text: &[u8]) -> usize
    ensures value { result ≡ prefix_len spec.is_blank text.now }
    ensures within { result ≤ length text.now }
{
    text.iter().take_while(|byte| is_blank(**byte)).count()
}

/// What stands behind the blanks at the front of a text.
pub fn without_blanks(text: &[u8]) -> &[u8]
    ensures value { result.now ≡ drop (prefix_len spec.is_blank text.now) text.now }
    ensures shorter { length result.now ≤ length text.now }
{
    rest_of(text, blanks_len(text))
}

/// The token at the front of a text that does not begin with a blank, and its length in bytes.
pub fn first_token(alloc: Global, text: &[u8]) -> Result<Option<(Token, usize)>, Memory>
    ensures value { IfOk result (λ r. r ≡ firsts.first text.now) }
    ensures some { IfOk result (λ r. IfSome r (λ q. 0 < q.1)) }
    ensures within { IfOk result (λ r. IfSome r (λ q. q.1 ≤ length text.now)) }
{
    first(alloc, text)
}

/// The tokens of a text.
pub fn tokens(alloc: Global, text: &[u8]) -> Result<TokenList, CutError>
    ensures { MatchResult result (λ cut. Cut text.now cut.list.items) (λ e. IsStray text.now e) }
{
    let mut list = Vec::new(alloc);
    let mut places = Vec::new(alloc);
    let mut rest = without_blanks(text);
    while !rest.is_empty() {
        let at = text.len().saturating_sub(rest.len());
        let found = first_token(alloc, rest)?;
        match found {
            None => return Err(CutError::Stray { at }),
            Some((token, len)) => {
                add(&mut list, token)?;
                places.push(at)?;
                rest = without_blanks(rest_of(rest, len));
            }
        }
    }
    Ok(TokenList { list, places })
}

fn add(list: &mut Vec<Token>, token: Token) -> Result<(), Memory>
    ensures { OnOk result (list.new.items ≡ list.old.items ++ token ∷ []) }
{
    list.push(token)?;
    Ok(())
}
