//! The tokens that are left, and the steps that every rule is made of.

ghost use Rattle.std.specs.Prelude.{◌≡◌, ◌∷◌, length, [], bytes_eq};
ghost use Rattle.cc_whole_reading.specs.Constants as constant_spec;
ghost use Rattle.cc_whole_reading.specs.Parse as spec;
ghost use Rattle.cc_whole_reading.specs.Parse.{Reads};
ghost use Rattle.cc_whole_reading.specs.declared.stop.Stop.TheVariants as stop;

use crate::constants::{Constants, negative, positive, unsigned};
use crate::stop::Stop;
use cc_whole::CConstant;
use cc_whole_tokens::{Mark, Token};
use cf_base::{Bytes, Name};
use std::alloc::Global;
use std::marker::Model;

/// A place in a list of tokens, which contracts see as the tokens from it on.
#[derive(Drop)]
pub struct Cursor<'a> {
    rest: &'a [Token],
}

impl<'a> Model for Cursor<'a> {
    ghost use Rattle.std.specs.Prelude.{List};
    ghost use Rattle.cc_whole_tokens.specs.declared.token.Token.{Token};

    ghost Value = { List Token };

    ghost view = { λ c. c.rest.now };
}

/// The constant, where it may be read.
fn converted(value: Option<CConstant>, left: usize) -> Result<CConstant, Stop>
    ensures { Reads (constant_spec.converted value left []) result [] }
{
    match value {
        None => Err(Stop::Unfit { left }),
        Some(value) => Ok(value),
    }
}

fn is_nought(digits: &[u8]) -> bool
    ensures { result ≡ bytes_eq digits.now (48 ∷ []) }
{
    digits == b"0".as_slice()
}

#[tactic(auto, unfolding(crate::specs::Parse::expect, crate::specs::Parse::name, crate::specs::Parse::end))]
impl<'a> Cursor<'a> {
    /// At the first of the tokens.
    pub fn new(tokens: &'a [Token]) -> Cursor<'a>
        ensures { result ≡ tokens.now }
    {
        Cursor { rest: tokens }
    }

    /// The same place once more.
    pub fn again(&self) -> Cursor<'a>
        ensures { result ≡ self.now }
    {
        Cursor { rest: self.rest }
    }

    /// The tokens that are left.
    pub fn tokens(&self) -> &'a [Token]
        ensures { result.now ≡ self.now }
    {
        self.rest
    }

    /// How many tokens are left.
    pub fn len(&self) -> usize
        ensures { result ≡ length self.now }
    {
        self.rest.len()
    }

    /// Whether no token is left.
    pub fn is_end(&self) -> bool
        ensures { result ≡ spec.is_end self.now }
    {
        match self.rest {
            [] => true,
            [_, ..] => false,
        }
    }

    /// Whether this sign or word comes next.
    pub fn sees(&self, mark: Mark) -> bool
        ensures { result ≡ spec.sees mark self.now }
    {
        match self.rest {
            [Token::Mark(next), ..] => next.is(mark),
            _ => false,
        }
    }

    /// Whether a `-` before a digit comes next.
    pub fn sees_dash(&self) -> bool
        ensures { result ≡ spec.sees_a spec.is_dash self.now }
    {
        matches!(self.rest, [Token::Dash, ..])
    }

    /// Whether a name comes next.
    pub fn sees_name(&self) -> bool
        ensures { result ≡ spec.sees_a spec.is_name self.now }
    {
        matches!(self.rest, [Token::Name(_), ..])
    }

    /// Whether a string comes next.
    pub fn sees_text(&self) -> bool
        ensures { result ≡ spec.sees_a spec.is_text self.now }
    {
        matches!(self.rest, [Token::Text(_), ..])
    }

    /// Whether the line before a shared definition comes next.
    pub fn sees_shared(&self) -> bool
        ensures { result ≡ spec.sees_a spec.is_shared self.now }
    {
        matches!(self.rest, [Token::Shared, ..])
    }

    /// Goes past the next token, if there is one.
    pub fn skip(&mut self)
        ensures { self.new ≡ spec.behind self.old }
    {
        match self.rest {
            [_, behind @ ..] => self.rest = behind,
            [] => {}
        }
    }

    /// The tokens are not C from here on.
    pub fn refusal(&self) -> Stop
        ensures { result ≡ stop.NotC (length self.now) }
    {
        Stop::NotC { left: self.len() }
    }

    /// Takes the sign or word.
    pub fn expect(&mut self, mark: Mark) -> Result<(), Stop>
        ensures { Reads (spec.expect mark self.old) result self.new }
    {
        if !self.sees(mark) {
            return Err(self.refusal());
        }
        self.skip();
        Ok(())
    }

    /// Takes a name: a copy of it.
    pub fn name(&mut self, alloc: Global) -> Result<Name, Stop>
        ensures { Reads (spec.name self.old) result self.new }
    {
        match self.rest {
            [Token::Name(name), behind @ ..] => {
                let name = Name::from_slice(alloc, name.as_slice())?;
                self.rest = behind;
                Ok(name)
            }
            _ => Err(self.refusal()),
        }
    }

    /// Takes a string: a copy of its bytes.
    #[tactic(auto, unfolding(crate::specs::Parse::text))]
    pub fn text(&mut self, alloc: Global) -> Result<Bytes, Stop>
        ensures { Reads (spec.text self.old) result self.new }
    {
        match self.rest {
            [Token::Text(bytes), behind @ ..] => {
                let bytes = Bytes::from_slice(alloc, bytes.as_slice())?;
                self.rest = behind;
                Ok(bytes)
            }
            _ => Err(self.refusal()),
        }
    }

    /// Takes the digit 0 alone.
    #[tactic(auto, unfolding(crate::specs::Parse::nought))]
    pub fn nought(&mut self) -> Result<(), Stop>
        ensures { Reads (spec.nought self.old) result self.new }
    {
        match self.rest {
            [Token::Signed(digits), behind @ ..] => {
                if !is_nought(digits.as_slice()) {
                    return Err(self.refusal());
                }
                self.rest = behind;
                Ok(())
            }
            _ => Err(self.refusal()),
        }
    }

    /// The tokens end here.
    pub fn end(&self) -> Result<(), Stop>
        ensures { Reads (spec.end self.now) result self.now }
    {
        match self.rest {
            [] => Ok(()),
            [_, ..] => Err(self.refusal()),
        }
    }

    /// Takes the digits of a constant behind its `-`.
    #[tactic(auto, unfolding(crate::specs::Constants::negative))]
    fn negative(&mut self, constants: Constants) -> Result<CConstant, Stop>
        ensures { Reads (constant_spec.negative (constant_spec.keeps constants) self.old) result self.new }
    {
        let left = self.len();
        match self.rest {
            [Token::Signed(digits), behind @ ..] => {
                let value = converted(negative(constants, digits.as_slice()), left)?;
                self.rest = behind;
                Ok(value)
            }
            _ => Err(self.refusal()),
        }
    }

    /// Takes a constant without a `-`.
    #[tactic(auto, unfolding(crate::specs::Constants::positive))]
    fn positive(&mut self, constants: Constants) -> Result<CConstant, Stop>
        ensures { Reads (constant_spec.positive (constant_spec.keeps constants) self.old) result self.new }
    {
        let left = self.len();
        match self.rest {
            [Token::Signed(digits), behind @ ..] => {
                let value = converted(positive(constants, digits.as_slice()), left)?;
                self.rest = behind;
                Ok(value)
            }
            [Token::Unsigned(digits), behind @ ..] => {
                let value = converted(unsigned(constants, digits.as_slice()), left)?;
                self.rest = behind;
                Ok(value)
            }
            _ => Err(self.refusal()),
        }
    }

    /// Takes a constant.
    #[tactic(auto, unfolding(crate::specs::Constants::constant))]
    pub fn constant(&mut self, constants: Constants) -> Result<CConstant, Stop>
        ensures { Reads (constant_spec.constant (constant_spec.keeps constants) self.old) result self.new }
    {
        if self.sees_dash() {
            self.skip();
            self.negative(constants)
        } else {
            self.positive(constants)
        }
    }
}
