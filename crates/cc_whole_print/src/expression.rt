//! Expressions, with the brackets that they need.

ghost use Rattle.std.specs.Prelude.{◌≡◌, ◌++◌, ◌≤◌, OnOk};
ghost use Rattle.cc_whole.specs.Operators as operators;
ghost use Rattle.cc_whole_print.specs.Expressions as spec;
ghost use Rattle.cc_whole_print.specs.Expressions.{expression_text, whole_text, bracketed_text, arguments_text, place_text};

use crate::lines::{put, put_constant, put_if, put_spaced};
use crate::types::type_name;
use cc_whole::{CExpression, CPlace, CType, Prefix};
use cc_whole_tokens::Mark;
use cf_base::{Arith, Items, Memory};

/// The level of a whole expression.
const LOOSEST: u8 = 8;

fn sign_of(op: Arith) -> Mark
    ensures { result ≡ spec.sign_of op }
{
    match op {
        Arith::Multiply => Mark::Star,
        Arith::Divide => Mark::Slash,
        Arith::Remainder => Mark::Percent,
        Arith::Add => Mark::Plus,
        Arith::Subtract => Mark::Minus,
        Arith::ShiftLeft => Mark::ShiftLeft,
        Arith::ShiftRight => Mark::ShiftRight,
        Arith::Less => Mark::Less,
        Arith::Greater => Mark::Greater,
        Arith::LessEqual => Mark::LessEqual,
        Arith::GreaterEqual => Mark::GreaterEqual,
        Arith::Equal => Mark::Equal,
        Arith::NotEqual => Mark::NotEqual,
        Arith::And => Mark::And,
        Arith::Xor => Mark::Xor,
        Arith::Or => Mark::Or,
    }
}

fn level_of(op: Arith) -> u8
    ensures value { result ≡ spec.level_of op }
    ensures from_one { 1 ≤ result }
{
    match op {
        Arith::Multiply => 1,
        Arith::Divide => 1,
        Arith::Remainder => 1,
        Arith::Add => 2,
        Arith::Subtract => 2,
        Arith::ShiftLeft => 3,
        Arith::ShiftRight => 3,
        Arith::Less => 4,
        Arith::Greater => 4,
        Arith::LessEqual => 4,
        Arith::GreaterEqual => 4,
        Arith::Equal => 5,
        Arith::NotEqual => 5,
        Arith::And => 6,
        Arith::Xor => 7,
        Arith::Or => 8,
    }
}

fn prefix_sign(op: Prefix) -> Mark
    ensures { result ≡ operators.prefix_mark op }
{
    match op {
        Prefix::Negate => Mark::Minus,
        Prefix::Complement => Mark::Complement,
        Prefix::Not => Mark::Not,
    }
}

/// `(type)`
fn cast_sign(out: &mut Vec<u8>, ty: CType) -> Result<(), Memory>
    ensures { OnOk result (out.new.items ≡ out.old.items ++ spec.cast_text ty) }
{
    put(out, Mark::LeftParen)?;
    type_name(out, ty)?;
    put(out, Mark::RightParen)
}

/// `*(type *)`
fn pointed_sign(out: &mut Vec<u8>, ty: CType) -> Result<(), Memory>
    ensures { OnOk result (out.new.items ≡ out.old.items ++ spec.pointed_text ty) }
{
    put(out, Mark::Star)?;
    put(out, Mark::LeftParen)?;
    type_name(out, ty)?;
    put(out, Mark::Star)?;
    put(out, Mark::RightParen)
}

#[cycle(expression)]
pub fn place(out: &mut Vec<u8>, place: &CPlace) -> Result<(), Memory>
    ensures { OnOk result (out.new.items ≡ out.old.items ++ place_text place.now) }
{
    match place {
        CPlace::Name(name) => put_spaced(out, name.as_slice()),
        CPlace::At(ty, address) => {
            pointed_sign(out, *ty)?;
            put(out, Mark::LeftParen)?;
            expression(out, address.get(), LOOSEST)?;
            put(out, Mark::RightParen)
        }
    }
}

/// An expression where operators up to a level may stand without brackets.
#[cycle(expression)]
fn expression(out: &mut Vec<u8>, expr: &CExpression, loosest: u8) -> Result<(), Memory>
    ensures { OnOk result (out.new.items ≡ out.old.items ++ expression_text expr.now loosest) }
{
    match expr {
        CExpression::Constant(value) => put_constant(out, *value),
        CExpression::Load(from) => place(out, from),
        CExpression::Unary(op, operand) => {
            put(out, prefix_sign(*op))?;
            expression(out, operand.get(), 0)
        }
        CExpression::Cast(ty, operand) => {
            cast_sign(out, *ty)?;
            expression(out, operand.get(), 0)
        }
        CExpression::AddressOf(name) => {
            cast_sign(out, CType::Pointer)?;
            put(out, Mark::And)?;
            put_spaced(out, name.as_slice())
        }
        CExpression::Binary(op, left, right) => {
            let level = level_of(*op);
            let needed = loosest < level;
            put_if(out, needed, Mark::LeftParen)?;
            expression(out, left.get(), level)?;
            put(out, sign_of(*op))?;
            expression(out, right.get(), level - 1)?;
            put_if(out, needed, Mark::RightParen)
        }
    }
}

pub fn whole(out: &mut Vec<u8>, expr: &CExpression) -> Result<(), Memory>
    ensures { OnOk result (out.new.items ≡ out.old.items ++ whole_text expr.now) }
{
    expression(out, expr, LOOSEST)
}

/// An expression in brackets.
pub fn in_brackets(out: &mut Vec<u8>, expr: &CExpression) -> Result<(), Memory>
    ensures { OnOk result (out.new.items ≡ out.old.items ++ bracketed_text (whole_text expr.now)) }
{
    put(out, Mark::LeftParen)?;
    whole(out, expr)?;
    put(out, Mark::RightParen)
}

/// Expressions with commas between them.
fn listed(out: &mut Vec<u8>, all: &Items<CExpression>) -> Result<(), Memory>
    ensures { OnOk result (out.new.items ≡ out.old.items ++ spec.listed_text all.now) }
{
    for (at, expr) in all.as_slice().iter().enumerate() {
        put_if(out, at > 0, Mark::Comma)?;
        whole(out, expr)?;
    }
    Ok(())
}

/// The arguments of a call, in brackets.
pub fn arguments(out: &mut Vec<u8>, all: &Items<CExpression>) -> Result<(), Memory>
    ensures { OnOk result (out.new.items ≡ out.old.items ++ arguments_text all.now) }
{
    put(out, Mark::LeftParen)?;
    listed(out, all)?;
    put(out, Mark::RightParen)
}
