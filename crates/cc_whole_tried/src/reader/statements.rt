//! Statements and bodies.

use crate::reader::cursor::Cursor;
use crate::reader::expressions::{DEPTH, arguments, deeper, expression, place};
use crate::reader::types::{result_type, sees_pointer_call, sees_type, types, wanted_type};
use crate::reader::wrong::Wrong;
use cc_whole::{
    CBody, CCallee, CLocal, CLocalType, CPlace, CSignature, CStatement, CSwitchItem, CType,
};
use cc_whole_tokens::Mark;
use cf_base::{Boxed, Items};

/// A whole body.
pub fn body(c: &mut Cursor<'_>) -> Result<CBody, Wrong> {
    body_within(c, DEPTH)
}

fn local(c: &mut Cursor<'_>) -> Result<CLocal, Wrong> {
    let ty = wanted_type(c)?;
    let name = c.name()?;
    if !c.takes(Mark::LeftBracket) {
        c.expect(Mark::Semicolon)?;
        let ty = CLocalType::Scalar(ty);
        return Ok(CLocal { ty, name });
    }
    let ty = CLocalType::Ints(c.constant()?);
    c.expect(Mark::RightBracket)?;
    c.expect(Mark::Semicolon)?;
    Ok(CLocal { ty, name })
}

fn locals(c: &mut Cursor<'_>) -> Result<Items<CLocal>, Wrong> {
    let mut found = Items::new(c.alloc);
    for _ in 0..c.len() {
        if !sees_type(c) {
            return Ok(found);
        }
        found.push(local(c)?)?;
    }
    Ok(found)
}

fn sees_call(c: &Cursor<'_>) -> bool {
    c.sees_named_call() || sees_pointer_call(c)
}

/// The type that a call through a pointer names, behind its first two brackets.
fn signature(c: &mut Cursor<'_>) -> Result<CSignature, Wrong> {
    let result = result_type(c)?;
    c.expect(Mark::LeftParen)?;
    c.expect(Mark::Star)?;
    c.expect(Mark::RightParen)?;
    c.expect(Mark::LeftParen)?;
    let parameters = types(c)?;
    Ok(CSignature { result, parameters })
}

fn callee(c: &mut Cursor<'_>) -> Result<CCallee, Wrong> {
    if !c.takes(Mark::LeftParen) {
        return Ok(CCallee::Name(c.name()?));
    }
    c.expect(Mark::LeftParen)?;
    let signature = signature(c)?;
    c.expect(Mark::RightParen)?;
    c.expect(Mark::LeftParen)?;
    let function = expression(c)?;
    c.expect(Mark::RightParen)?;
    c.expect(Mark::RightParen)?;
    Ok(CCallee::Pointer(signature, function))
}

fn call(c: &mut Cursor<'_>, place: Option<CPlace>) -> Result<CStatement, Wrong> {
    let callee = callee(c)?;
    let arguments = arguments(c)?;
    c.expect(Mark::Semicolon)?;
    Ok(CStatement::Call(place, callee, arguments))
}

fn call_or_assignment(c: &mut Cursor<'_>) -> Result<CStatement, Wrong> {
    if sees_call(c) {
        return call(c, None);
    }
    let place = place(c)?;
    c.expect(Mark::Assign)?;
    if sees_call(c) {
        return call(c, Some(place));
    }
    let value = expression(c)?;
    c.expect(Mark::Semicolon)?;
    Ok(CStatement::Assign(place, value))
}

/// The rest of a `return`.
fn returned(c: &mut Cursor<'_>) -> Result<CStatement, Wrong> {
    if c.takes(Mark::Semicolon) {
        return Ok(CStatement::Return(None));
    }
    let value = expression(c)?;
    c.expect(Mark::Semicolon)?;
    Ok(CStatement::Return(Some(value)))
}

/// A statement with no body in it.
fn simple(c: &mut Cursor<'_>) -> Result<CStatement, Wrong> {
    if c.takes(Mark::Return) {
        return returned(c);
    }
    let leaves = c.takes(Mark::Break);
    if !leaves && !c.takes(Mark::Continue) {
        return call_or_assignment(c);
    }
    c.expect(Mark::Semicolon)?;
    Ok(if leaves {
        CStatement::Break
    } else {
        CStatement::Continue
    })
}

#[cycle(body)]
fn statement(c: &mut Cursor<'_>, depth: usize) -> Result<CStatement, Wrong> {
    let depth = deeper(depth)?;
    match c.mark_at(0) {
        Some(Mark::LeftBrace) => Ok(CStatement::Block(boxed_body(c, depth)?)),
        Some(Mark::If) => conditional(c, depth),
        Some(Mark::For) => forever(c, depth),
        Some(Mark::Switch) => switch(c, depth),
        _ => simple(c),
    }
}

/// An expression in brackets, behind a word.
fn condition(c: &mut Cursor<'_>) -> Result<Boxed<cc_whole::CExpression>, Wrong> {
    c.skip();
    c.expect(Mark::LeftParen)?;
    let value = expression(c)?;
    c.expect(Mark::RightParen)?;
    Ok(value)
}

#[cycle(body)]
fn conditional(c: &mut Cursor<'_>, depth: usize) -> Result<CStatement, Wrong> {
    let depth = deeper(depth)?;
    let value = condition(c)?;
    let then = boxed_body(c, depth)?;
    if !c.takes(Mark::Else) {
        return Ok(CStatement::If(value, then, None));
    }
    let otherwise = boxed_body(c, depth)?;
    Ok(CStatement::If(value, then, Some(otherwise)))
}

#[cycle(body)]
fn forever(c: &mut Cursor<'_>, depth: usize) -> Result<CStatement, Wrong> {
    let depth = deeper(depth)?;
    c.skip();
    c.expect(Mark::LeftParen)?;
    c.expect(Mark::Semicolon)?;
    c.expect(Mark::Semicolon)?;
    c.expect(Mark::RightParen)?;
    Ok(CStatement::Loop(boxed_body(c, depth)?))
}

#[cycle(body)]
fn switch_item(c: &mut Cursor<'_>, depth: usize) -> Result<CSwitchItem, Wrong> {
    let depth = deeper(depth)?;
    if c.takes(Mark::Case) {
        let label = c.constant()?;
        c.expect(Mark::Colon)?;
        return Ok(CSwitchItem::Case(label));
    }
    if c.takes(Mark::Default) {
        c.expect(Mark::Colon)?;
        return Ok(CSwitchItem::Default);
    }
    Ok(CSwitchItem::Statement(statement(c, depth)?))
}

#[cycle(body)]
fn switch(c: &mut Cursor<'_>, depth: usize) -> Result<CStatement, Wrong> {
    let depth = deeper(depth)?;
    let value = condition(c)?;
    c.expect(Mark::LeftBrace)?;
    let mut items = Items::new(c.alloc);
    for _ in 0..c.len() {
        if c.takes(Mark::RightBrace) {
            return Ok(CStatement::Switch(value, items));
        }
        items.push(switch_item(c, depth)?)?;
    }
    Err(c.wrong())
}

#[cycle(body)]
fn boxed_body(c: &mut Cursor<'_>, depth: usize) -> Result<Boxed<CBody>, Wrong> {
    let depth = deeper(depth)?;
    let body = body_within(c, depth)?;
    Ok(Boxed::new(c.alloc, body)?)
}

#[cycle(body)]
fn body_within(c: &mut Cursor<'_>, depth: usize) -> Result<CBody, Wrong> {
    let depth = deeper(depth)?;
    c.expect(Mark::LeftBrace)?;
    let locals = locals(c)?;
    let mut statements = Items::new(c.alloc);
    for _ in 0..c.len() {
        if c.takes(Mark::RightBrace) {
            return Ok(CBody { locals, statements });
        }
        statements.push(statement(c, depth)?)?;
    }
    Err(c.wrong())
}
