//! The tokens that are left of a text.

use crate::reader::wrong::Wrong;
use cc_whole::{CConstant, Prefix};
use cc_whole_tokens::{Mark, Token};
use cf_base::{Arith, Bytes, Name};
use std::alloc::Global;

#[derive(Drop)]
pub struct Cursor<'a> {
    pub alloc: Global,
    rest: &'a [Token],
}

/// The operator that a sign is between two operands.
fn operator_of(mark: Mark) -> Option<Arith> {
    match mark {
        Mark::Star => Some(Arith::Multiply),
        Mark::Slash => Some(Arith::Divide),
        Mark::Percent => Some(Arith::Remainder),
        Mark::Plus => Some(Arith::Add),
        Mark::Minus => Some(Arith::Subtract),
        Mark::ShiftLeft => Some(Arith::ShiftLeft),
        Mark::ShiftRight => Some(Arith::ShiftRight),
        Mark::Less => Some(Arith::Less),
        Mark::Greater => Some(Arith::Greater),
        Mark::LessEqual => Some(Arith::LessEqual),
        Mark::GreaterEqual => Some(Arith::GreaterEqual),
        Mark::Equal => Some(Arith::Equal),
        Mark::NotEqual => Some(Arith::NotEqual),
        Mark::And => Some(Arith::And),
        Mark::Xor => Some(Arith::Xor),
        Mark::Or => Some(Arith::Or),
        _ => None,
    }
}

fn prefix_of(mark: Mark) -> Option<Prefix> {
    match mark {
        Mark::Minus => Some(Prefix::Negate),
        Mark::Complement => Some(Prefix::Complement),
        Mark::Not => Some(Prefix::Not),
        _ => None,
    }
}

/// The number that digits write, or a greater one than any constant where it has more than 64 bits.
fn number(digits: &[u8]) -> i64 {
    let mut value = 0i64;
    for digit in digits {
        let unit = i64::from(digit.saturating_sub(b'0'));
        value = value.saturating_mul(10).saturating_add(unit);
    }
    value
}

impl<'a> Cursor<'a> {
    pub fn new(alloc: Global, rest: &'a [Token]) -> Cursor<'a> {
        Cursor { alloc, rest }
    }

    /// How many tokens are left.
    pub fn len(&self) -> usize {
        self.rest.len()
    }

    /// What is wrong where another token is wanted.
    pub fn wrong(&self) -> Wrong {
        Wrong::Token {
            left: self.rest.len(),
        }
    }

    /// The sign or word that stands so many tokens ahead, if one does.
    pub fn mark_at(&self, ahead: usize) -> Option<Mark> {
        match self.rest.get(ahead) {
            Some(Token::Mark(mark)) => Some(*mark),
            _ => None,
        }
    }

    pub fn sees(&self, mark: Mark) -> bool {
        self.mark_at(0) == Some(mark)
    }

    /// Whether a name and `(` come next.
    pub fn sees_named_call(&self) -> bool {
        matches!(
            self.rest,
            [Token::Name(_), Token::Mark(Mark::LeftParen), ..]
        )
    }

    pub fn sees_constant(&self) -> bool {
        matches!(
            self.rest,
            [Token::Dash | Token::Signed(_) | Token::Unsigned(_), ..]
        )
    }

    /// Goes past the next token, if there is one.
    pub fn skip(&mut self) {
        if let [_, behind @ ..] = self.rest {
            self.rest = behind;
        }
    }

    /// Goes past this sign or word, if it comes next.
    pub fn takes(&mut self, mark: Mark) -> bool {
        let seen = self.sees(mark);
        if seen {
            self.skip();
        }
        seen
    }

    /// Goes past the line before a shared definition, if it comes next.
    pub fn takes_shared(&mut self) -> bool {
        let seen = matches!(self.rest, [Token::Shared, ..]);
        if seen {
            self.skip();
        }
        seen
    }

    pub fn expect(&mut self, mark: Mark) -> Result<(), Wrong> {
        if self.takes(mark) {
            Ok(())
        } else {
            Err(self.wrong())
        }
    }

    pub fn name(&mut self) -> Result<Name, Wrong> {
        match self.rest {
            [Token::Name(name), behind @ ..] => {
                let name = Name::from_slice(self.alloc, name.as_slice())?;
                self.rest = behind;
                Ok(name)
            }
            _ => Err(self.wrong()),
        }
    }

    /// The bytes of a string, if one comes next.
    pub fn text(&mut self) -> Result<Option<Bytes>, Wrong> {
        match self.rest {
            [Token::Text(text), behind @ ..] => {
                let text = Bytes::from_slice(self.alloc, text.as_slice())?;
                self.rest = behind;
                Ok(Some(text))
            }
            _ => Ok(None),
        }
    }

    pub fn constant(&mut self) -> Result<CConstant, Wrong> {
        let constant = match self.rest {
            [Token::Dash, Token::Signed(digits), ..] => {
                self.skip();
                signed(number(digits.as_slice()).checked_neg())
            }
            [Token::Signed(digits), ..] => signed(Some(number(digits.as_slice()))),
            [Token::Unsigned(digits), ..] => unsigned(number(digits.as_slice())),
            _ => None,
        };
        self.skip();
        constant.ok_or(self.wrong())
    }

    /// Goes past the operator between two operands, if one comes next.
    pub fn takes_operator(&mut self) -> Option<Arith> {
        let operator = match self.rest {
            [Token::Dash, ..] => Some(Arith::Subtract),
            [Token::Mark(mark), ..] => operator_of(*mark),
            _ => None,
        };
        if operator.is_some() {
            self.skip();
        }
        operator
    }

    /// Goes past the operator before an operand, if one comes next.
    pub fn takes_prefix(&mut self) -> Option<Prefix> {
        let prefix = match self.rest {
            [Token::Mark(mark), ..] => prefix_of(*mark),
            _ => None,
        };
        if prefix.is_some() {
            self.skip();
        }
        prefix
    }
}

fn signed(value: Option<i64>) -> Option<CConstant> {
    match i32::try_from(value?) {
        Ok(value) => Some(CConstant::Signed(value)),
        Err(_) => None,
    }
}

fn unsigned(value: i64) -> Option<CConstant> {
    match u32::try_from(value) {
        Ok(value) => Some(CConstant::Unsigned(value)),
        Err(_) => None,
    }
}
