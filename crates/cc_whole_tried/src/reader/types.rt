//! Types and prototypes.

use crate::reader::cursor::Cursor;
use crate::reader::wrong::Wrong;
use cc_whole::{CParameter, CPrototype, CType};
use cc_whole_tokens::Mark;
use cf_base::{Items, Name};

/// The type that these signs and words begin, and of how many tokens it is.
fn type_of(first: Mark, second: Option<Mark>) -> Option<(CType, usize)> {
    match (first, second) {
        (Mark::Char, Some(Mark::Star)) => Some((CType::Pointer, 2)),
        (Mark::Unsigned, Some(Mark::Char)) => Some((CType::UChar, 2)),
        (Mark::Unsigned, Some(Mark::Short)) => Some((CType::UShort, 2)),
        (Mark::Unsigned, _) => Some((CType::UInt, 1)),
        (Mark::Char, _) => Some((CType::Char, 1)),
        (Mark::Short, _) => Some((CType::Short, 1)),
        (Mark::Int, _) => Some((CType::Int, 1)),
        (Mark::FunctionPointer, _) => Some((CType::FunctionPointer, 1)),
        _ => None,
    }
}

/// The type that stands so many tokens ahead, and of how many tokens it is.
fn type_at(c: &Cursor<'_>, ahead: usize) -> Option<(CType, usize)> {
    let first = c.mark_at(ahead)?;
    type_of(first, c.mark_at(ahead.saturating_add(1)))
}

pub fn sees_type(c: &Cursor<'_>) -> bool {
    type_at(c, 0).is_some()
}

/// Goes past a type, if one comes next.
pub fn takes_type(c: &mut Cursor<'_>) -> Option<CType> {
    let (ty, tokens) = type_at(c, 0)?;
    for _ in 0..tokens {
        c.skip();
    }
    Some(ty)
}

pub fn wanted_type(c: &mut Cursor<'_>) -> Result<CType, Wrong> {
    takes_type(c).ok_or(c.wrong())
}

/// The type of a place, with the `*` behind it.
pub fn pointed_type(c: &mut Cursor<'_>) -> Result<CType, Wrong> {
    let ends = c.mark_at(2) == Some(Mark::RightParen);
    if c.sees(Mark::Char) && ends {
        c.skip();
        c.skip();
        return Ok(CType::Char);
    }
    let ty = wanted_type(c)?;
    c.expect(Mark::Star)?;
    Ok(ty)
}

/// A type, or none for `void`.
pub fn result_type(c: &mut Cursor<'_>) -> Result<Option<CType>, Wrong> {
    if c.takes(Mark::Void) {
        return Ok(None);
    }
    Ok(Some(wanted_type(c)?))
}

/// Whether `((type(*)` comes next, which begins a call through a pointer.
pub fn sees_pointer_call(c: &Cursor<'_>) -> bool {
    if c.mark_at(0) != Some(Mark::LeftParen) || c.mark_at(1) != Some(Mark::LeftParen) {
        return false;
    }
    let behind = if c.mark_at(2) == Some(Mark::Void) {
        3
    } else {
        match type_at(c, 2) {
            Some((CType::UChar | CType::UShort | CType::Pointer, _)) => 4,
            Some(_) => 3,
            None => return false,
        }
    };
    c.mark_at(behind) == Some(Mark::LeftParen)
}

/// Types up to the closing bracket, which is taken too.
pub fn types(c: &mut Cursor<'_>) -> Result<Items<CType>, Wrong> {
    let mut found = Items::new(c.alloc);
    if c.takes(Mark::Void) {
        c.expect(Mark::RightParen)?;
        return Ok(found);
    }
    for _ in 0..c.len() {
        found.push(wanted_type(c)?)?;
        if c.takes(Mark::RightParen) {
            return Ok(found);
        }
        c.expect(Mark::Comma)?;
    }
    Err(c.wrong())
}

fn parameter(c: &mut Cursor<'_>) -> Result<CParameter, Wrong> {
    let ty = wanted_type(c)?;
    let name = c.name()?;
    Ok(CParameter { ty, name })
}

/// Parameters up to the closing bracket, which is taken too.
fn parameters(c: &mut Cursor<'_>) -> Result<Items<CParameter>, Wrong> {
    let mut found = Items::new(c.alloc);
    if c.takes(Mark::Void) {
        c.expect(Mark::RightParen)?;
        return Ok(found);
    }
    for _ in 0..c.len() {
        found.push(parameter(c)?)?;
        if c.takes(Mark::RightParen) {
            return Ok(found);
        }
        c.expect(Mark::Comma)?;
    }
    Err(c.wrong())
}

/// What is behind the name of a function: the rest of its prototype.
pub fn prototype(
    c: &mut Cursor<'_>,
    is_static: bool,
    given: Option<CType>,
    name: Name,
) -> Result<CPrototype, Wrong> {
    c.expect(Mark::LeftParen)?;
    let parameters = parameters(c)?;
    Ok(CPrototype {
        is_static,
        result: given,
        name,
        parameters,
    })
}
