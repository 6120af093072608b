//! Expressions and places.

ghost use Rattle.std.specs.Prelude.{◌<◌, IfOk};

use crate::reader::cursor::Cursor;
use crate::reader::types::{pointed_type, takes_type};
use crate::reader::wrong::Wrong;
use cc_whole::{CExpression, CPlace, CType, Prefix};
use cc_whole_tokens::Mark;
use cf_base::{Arith, Boxed, Items};
use std::alloc::Global;

/// How deeply expressions and bodies may be nested, in steps of the reader.
pub const DEPTH: usize = 200;

/// One step fewer, if there is one.
pub fn deeper(depth: usize) -> Result<usize, Wrong>
    ensures { IfOk result (λ left. left < depth) }
{
    match depth {
        0 => Err(Wrong::Deep),
        _ => Ok(depth - 1),
    }
}

/// A whole expression.
pub fn expression(c: &mut Cursor<'_>) -> Result<Boxed<CExpression>, Wrong> {
    let whole = operation(c, DEPTH)?;
    Ok(Boxed::new(c.alloc, whole)?)
}

/// A place.
pub fn place(c: &mut Cursor<'_>) -> Result<CPlace, Wrong> {
    place_within(c, DEPTH)
}

/// Arguments in their brackets.
pub fn arguments(c: &mut Cursor<'_>) -> Result<Items<CExpression>, Wrong> {
    let mut found = Items::new(c.alloc);
    c.expect(Mark::LeftParen)?;
    if c.takes(Mark::RightParen) {
        return Ok(found);
    }
    for _ in 0..c.len() {
        found.push(operation(c, DEPTH)?)?;
        if c.takes(Mark::RightParen) {
            return Ok(found);
        }
        c.expect(Mark::Comma)?;
    }
    Err(c.wrong())
}

fn joined(
    alloc: Global,
    operator: Arith,
    left: CExpression,
    right: CExpression,
) -> Result<CExpression, Wrong> {
    let left = Boxed::new(alloc, left)?;
    let right = Boxed::new(alloc, right)?;
    Ok(CExpression::Binary(operator, left, right))
}

fn prefixed(alloc: Global, prefix: Prefix, operand: CExpression) -> Result<CExpression, Wrong> {
    let operand = Boxed::new(alloc, operand)?;
    Ok(CExpression::Unary(prefix, operand))
}

/// An operand, or two with an operator between them.
#[cycle(expression)]
fn operation(c: &mut Cursor<'_>, depth: usize) -> Result<CExpression, Wrong> {
    let depth = deeper(depth)?;
    let left = operand(c, depth)?;
    match c.takes_operator() {
        None => Ok(left),
        Some(operator) => {
            let right = operand(c, depth)?;
            joined(c.alloc, operator, left, right)
        }
    }
}

#[cycle(expression)]
fn operand(c: &mut Cursor<'_>, depth: usize) -> Result<CExpression, Wrong> {
    let depth = deeper(depth)?;
    if c.takes(Mark::LeftParen) {
        return behind_bracket(c, depth);
    }
    if c.sees_constant() {
        return Ok(CExpression::Constant(c.constant()?));
    }
    match c.takes_prefix() {
        None => Ok(CExpression::Load(place_within(c, depth)?)),
        Some(prefix) => {
            let operand = operand(c, depth)?;
            prefixed(c.alloc, prefix, operand)
        }
    }
}

/// The rest of a cast, of an address or of an expression in brackets.
#[cycle(expression)]
fn behind_bracket(c: &mut Cursor<'_>, depth: usize) -> Result<CExpression, Wrong> {
    let depth = deeper(depth)?;
    match takes_type(c) {
        Some(ty) => {
            c.expect(Mark::RightParen)?;
            cast(c, depth, ty)
        }
        None => {
            let inner = operation(c, depth)?;
            c.expect(Mark::RightParen)?;
            Ok(inner)
        }
    }
}

#[cycle(expression)]
fn cast(c: &mut Cursor<'_>, depth: usize, ty: CType) -> Result<CExpression, Wrong> {
    let depth = deeper(depth)?;
    if ty.is(CType::Pointer) && c.takes(Mark::And) {
        return Ok(CExpression::AddressOf(c.name()?));
    }
    let operand = operand(c, depth)?;
    Ok(CExpression::Cast(ty, Boxed::new(c.alloc, operand)?))
}

#[cycle(expression)]
fn place_within(c: &mut Cursor<'_>, depth: usize) -> Result<CPlace, Wrong> {
    let depth = deeper(depth)?;
    if !c.takes(Mark::Star) {
        return Ok(CPlace::Name(c.name()?));
    }
    c.expect(Mark::LeftParen)?;
    let ty = pointed_type(c)?;
    c.expect(Mark::RightParen)?;
    c.expect(Mark::LeftParen)?;
    let address = operation(c, depth)?;
    c.expect(Mark::RightParen)?;
    Ok(CPlace::At(ty, Boxed::new(c.alloc, address)?))
}
