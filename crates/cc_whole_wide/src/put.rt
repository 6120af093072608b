//! What is put for a token.

ghost use Rattle.std.specs.Prelude.{◌≡◌, ◌++◌, ◌∷◌, [], decimal, IfOk, OnOk};
ghost use Rattle.cc_whole_tokens.specs.declared.token.Token.TheVariants as tok;
ghost use Rattle.cc_whole_wide.specs.Others as spec;

use crate::label::{low_bits, signed_bits};
use crate::role::Role;
use cc_whole_fitting::{Before, token_fits};
use cc_whole_tokens::{Mark, Token};
use cf_base::{Bytes, Items, Memory};
use itoa::Buffer;
use std::alloc::Global;

fn add(made: &mut Vec<Token>, token: Token) -> Result<(), Memory>
    ensures { OnOk result (made.new.items ≡ made.old.items ++ token ∷ []) }
{
    made.push(token)?;
    Ok(())
}

fn add_mark(made: &mut Vec<Token>, mark: Mark) -> Result<(), Memory>
    ensures { OnOk result (made.new.items ≡ made.old.items ++ tok.Mark mark ∷ []) }
{
    add(made, Token::Mark(mark))
}

/// A copy of a token.
fn copied(alloc: Global, token: &Token) -> Result<Token, Memory>
    ensures { IfOk result (λ made. made ≡ token.now) }
{
    match token {
        Token::Mark(mark) => Ok(Token::Mark(*mark)),
        Token::Dash => Ok(Token::Dash),
        Token::Name(name) => Ok(Token::Name(Items::from_slice(alloc, name.as_slice())?)),
        Token::Signed(digits) => Ok(Token::Signed(Items::from_slice(alloc, digits.as_slice())?)),
        Token::Unsigned(digits) => {
            Ok(Token::Unsigned(Items::from_slice(alloc, digits.as_slice())?))
        }
        Token::Text(bytes) => Ok(Token::Text(Items::from_slice(alloc, bytes.as_slice())?)),
        Token::Shared => Ok(Token::Shared),
    }
}

fn add_zero(alloc: Global, made: &mut Vec<Token>) -> Result<(), Memory>
    ensures { OnOk result (made.new.items ≡ made.old.items ++ spec.zero_token ∷ []) }
{
    let digits = Items::from_slice(alloc, b"0")?;
    add(made, Token::Signed(digits))
}

fn add_main(alloc: Global, made: &mut Vec<Token>) -> Result<(), Memory>
    ensures { OnOk result (made.new.items ≡ made.old.items ++ spec.main_token ∷ []) }
{
    let name = Items::from_slice(alloc, b"main")?;
    add(made, Token::Name(name))
}

/// An int as a function pointer.
fn add_breaking(alloc: Global, made: &mut Vec<Token>) -> Result<(), Memory>
    ensures { OnOk result (made.new.items ≡ made.old.items ++ spec.breaking_tokens) }
{
    let digits = Items::from_slice(alloc, b"1")?;
    add_mark(made, Mark::LeftParen)?;
    add_mark(made, Mark::FunctionPointer)?;
    add_mark(made, Mark::RightParen)?;
    add(made, Token::Signed(digits))
}

fn decimal_digits(alloc: Global, bits: u32) -> Result<Bytes, Memory>
    ensures { IfOk result (λ made. made ≡ decimal bits) }
{
    let mut digits = Buffer::new();
    let digits = digits.format(bits).as_bytes();
    Items::from_slice(alloc, digits)
}

/// A label, a statement that breaks V3, and the front of another label.
fn add_label(alloc: Global, made: &mut Vec<Token>, bits: u32) -> Result<(), Memory>
    ensures { OnOk result (made.new.items ≡ made.old.items ++ spec.label_tokens (decimal bits)) }
{
    let digits = decimal_digits(alloc, bits)?;
    add(made, Token::Unsigned(digits))?;
    add_mark(made, Mark::Colon)?;
    add_mark(made, Mark::If)?;
    add_mark(made, Mark::LeftParen)?;
    add_breaking(alloc, made)?;
    add_mark(made, Mark::RightParen)?;
    add_mark(made, Mark::LeftBrace)?;
    add_mark(made, Mark::RightBrace)?;
    add_mark(made, Mark::Case)?;
    add_zero(alloc, made)
}

/// What stands in place of a constant that does not fit.
fn add_instead(alloc: Global, made: &mut Vec<Token>, role: Role, bits: u32) -> Result<(), Memory>
    ensures { OnOk result (made.new.items ≡ made.old.items ++ spec.instead role bits) }
{
    match role {
        Role::Label => add_label(alloc, made, bits),
        Role::Size | Role::Pair => add_zero(alloc, made),
        Role::Function => add_main(alloc, made),
        Role::Value => add_breaking(alloc, made),
    }
}

/// A token that stays, but for the function of a pair whose number does not fit.
fn add_kept(alloc: Global, made: &mut Vec<Token>, role: Role, token: &Token) -> Result<(), Memory>
    ensures { OnOk result (made.new.items ≡ made.old.items ++ spec.kept role (token.now ∷ [])) }
{
    match role {
        Role::Function => add_main(alloc, made),
        Role::Label | Role::Size | Role::Pair | Role::Value => add(made, copied(alloc, token)?),
    }
}

/// A number that stays, with its sign.
fn add_with_sign(
    alloc: Global,
    made: &mut Vec<Token>,
    before: Before,
    token: &Token,
) -> Result<(), Memory>
    ensures { OnOk result (made.new.items ≡ made.old.items ++ spec.with_sign before token.now) }
{
    match before {
        Before::Sign => {
            add(made, Token::Dash)?;
            add(made, copied(alloc, token)?)
        }
        Before::Operand | Before::Word | Before::Other => add(made, copied(alloc, token)?),
    }
}

fn add_kept_with_sign(
    alloc: Global,
    made: &mut Vec<Token>,
    before: Before,
    role: Role,
    token: &Token,
) -> Result<(), Memory>
    ensures { OnOk result (made.new.items ≡ made.old.items ++ spec.kept role (spec.with_sign before token.now)) }
{
    match role {
        Role::Function => add_main(alloc, made),
        Role::Label | Role::Size | Role::Pair | Role::Value => {
            add_with_sign(alloc, made, before, token)
        }
    }
}

/// A `-`, but for a sign, which is put with its number.
fn add_dash(made: &mut Vec<Token>, before: Before) -> Result<(), Memory>
    ensures { OnOk result (made.new.items ≡ made.old.items ++ spec.dash before) }
{
    match before {
        Before::Operand => add(made, Token::Dash),
        Before::Word | Before::Sign | Before::Other => Ok(()),
    }
}

/// Puts what stands for a token.
pub fn put(
    alloc: Global,
    made: &mut Vec<Token>,
    token: &Token,
    before: Before,
    role: Role,
) -> Result<(), Memory>
    ensures { OnOk result (made.new.items ≡ made.old.items ++ spec.put token.now before role) }
{
    let fits = token_fits(token, before);
    match token {
        Token::Dash => add_dash(made, before),
        Token::Name(_) => add_kept(alloc, made, role, token),
        Token::Signed(digits) => {
            if fits {
                add_kept_with_sign(alloc, made, before, role, token)
            } else {
                add_instead(alloc, made, role, signed_bits(digits.as_slice(), before))
            }
        }
        Token::Unsigned(digits) => {
            if fits {
                add_kept(alloc, made, role, token)
            } else {
                add_instead(alloc, made, role, low_bits(digits.as_slice()))
            }
        }
        Token::Mark(_) | Token::Text(_) | Token::Shared => add(made, copied(alloc, token)?),
    }
}
