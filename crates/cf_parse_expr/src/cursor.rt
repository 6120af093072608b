//! The tokens that are left.

ghost use Rattle.std.specs.Prelude.{◌≡◌, suc, length, drop, is_some};
ghost use Rattle.std.specs.Option.{option_copied};
ghost use Rattle.cf_syntax.specs.Words.{code, front, place, ident_of, ident_at};
ghost use Rattle.cf_syntax.specs.Parse.{word};
ghost use Rattle.cf_parse_expr.specs.Reads.{Reads};

use crate::stop::Stop;
use cf_tokens::{Token, Word};
use std::marker::Model;

/// A place in a list of tokens, which contracts see as the tokens from it on.
#[derive(Drop)]
pub struct Cursor<'a> {
    rest: &'a [Token],
}

impl<'a> Model for Cursor<'a> {
    ghost use Rattle.std.specs.Prelude.{List};
    ghost use Rattle.cf_tokens.specs.declared.token.Token.{Token};

    ghost Value = { List Token };

    ghost view = { λ c. c.rest.now };
}

/// The number of a word.
fn code_of(word: &Word) -> u16
    ensures { result ≡ code word.now }
{
    match word {
        Word::Ident(_) => 128,
        Word::Keyword(k) => 64 + u16::from(*k),
        Word::Int { .. } => 129,
        Word::Char(_) => 130,
        Word::Text(_) => 131,
        Word::Sign(s) => u16::from(*s),
    }
}

impl<'a> Cursor<'a> {
    pub fn new(tokens: &'a [Token]) -> Cursor<'a>
        ensures { result ≡ tokens.now }
    {
        Cursor { rest: tokens }
    }

    /// How many tokens are left.
    pub fn len(&self) -> usize
        ensures { result ≡ length self.now }
    {
        self.rest.len()
    }

    /// One more than how many tokens are left: a depth that no phrase passes.
    pub fn depth(&self) -> usize
        ensures { result ≡ suc (length self.now) }
    {
        one_more(self.rest)
    }

    /// The tokens that are left.
    pub fn rest(&self) -> &'a [Token]
        ensures { result.now ≡ self.now }
    {
        self.rest
    }

    /// Goes to where these tokens are left.
    pub fn set(&mut self, rest: &'a [Token])
        ensures { self.new ≡ rest.now }
    {
        self.rest = rest;
    }

    /// The number of the next word, and 255 at the end.
    pub fn front(&self) -> u16
        ensures { result ≡ front self.now }
    {
        match self.rest {
            [token, ..] => code_of(&token.word),
            [] => 255,
        }
    }

    /// The number of the word behind the next one.
    pub fn second(&self) -> u16
        ensures { result ≡ front (drop 1 self.now) }
    {
        match self.rest {
            [_, token, ..] => code_of(&token.word),
            [_] | [] => 255,
        }
    }

    /// The place of the next token, and 0 at the end.
    pub fn place(&self) -> u32
        ensures { result ≡ place self.now }
    {
        match self.rest {
            [token, ..] => token.at,
            [] => 0,
        }
    }

    /// The identifier that comes next, if one does.
    pub fn ident(&self) -> Option<&'a [u8]>
        ensures { option_copied result ≡ ident_at self.now }
    {
        match self.rest {
            [token, ..] => ident_of(&token.word),
            [] => None,
        }
    }

    /// The identifier behind the next token, if one stands there.
    pub fn second_ident(&self) -> Option<&'a [u8]>
        ensures { option_copied result ≡ ident_at (drop 1 self.now) }
    {
        match self.rest {
            [_, token, ..] => ident_of(&token.word),
            [_] | [] => None,
        }
    }

    /// Whether the third token is an identifier.
    pub fn third_is_ident(&self) -> bool
        ensures { result ≡ is_some (ident_at (drop 2 self.now)) }
    {
        match self.rest {
            [_, _, token, ..] => ident_of(&token.word).is_some(),
            [_, _] | [_] | [] => false,
        }
    }

    /// Goes past the next token, if there is one.
    pub fn skip(&mut self)
        ensures { self.new ≡ drop 1 self.old }
    {
        match self.rest {
            [_, behind @ ..] => self.rest = behind,
            [] => {}
        }
    }

    /// Goes past the next two tokens, as far as there are two.
    pub fn skip_two(&mut self)
        ensures { self.new ≡ drop 2 self.old }
    {
        match self.rest {
            [_, _, behind @ ..] => self.rest = behind,
            [_] | [] => self.rest = &[],
        }
    }

    /// Takes the word of this number, and gives its place.
    pub fn word(&mut self, number: u16) -> Result<u32, Stop>
        ensures { Reads (word number self.old) result self.new }
    {
        match self.rest {
            [token, behind @ ..] => {
                if code_of(&token.word) != number {
                    return Err(Stop::Nothing);
                }
                self.rest = behind;
                Ok(token.at)
            }
            [] => Err(Stop::Nothing),
        }
    }
}

/// One more than the number of the tokens.
fn one_more(tokens: &[Token]) -> usize
    ensures { result ≡ suc (length tokens.now) }
{
    tokens.len() + 1
}

/// The name that a word is, if it is an identifier.
fn ident_of(word: &Word) -> Option<&[u8]>
    ensures { option_copied result ≡ ident_of word.now }
{
    match word {
        Word::Ident(name) => Some(name.as_slice()),
        _ => None,
    }
}
