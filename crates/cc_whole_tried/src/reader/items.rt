//! Functions and variables.

use crate::reader::cursor::Cursor;
use crate::reader::statements::body;
use crate::reader::types::{prototype, wanted_type};
use crate::reader::wrong::Wrong;
use cc_whole::{
    CFunction, CInitialiser, CItem, CPair, CPrototype, CType, CVariable, CVariableType,
};
use cc_whole_cut::tokens;
use cc_whole_tokens::Mark;
use cf_base::{Items, Name};
use std::alloc::Global;

/// The items that a text writes.
pub fn read_items(alloc: Global, text: &str) -> Result<Items<CItem>, Wrong> {
    let cut = tokens(alloc, text.as_bytes())?;
    let mut c = Cursor::new(alloc, cut.list.as_slice());
    let mut items = Items::new(alloc);
    for _ in 0..c.len() {
        if c.len() == 0 {
            return Ok(items);
        }
        items.push(item(&mut c)?)?;
    }
    Ok(items)
}

/// What may stand before the type of an item.
#[derive(Clone, Copy)]
struct Ahead {
    is_shared: bool,
    is_extern: bool,
    is_static: bool,
}

fn item(c: &mut Cursor<'_>) -> Result<CItem, Wrong> {
    let ahead = Ahead {
        is_shared: c.takes_shared(),
        is_extern: c.takes(Mark::Extern),
        is_static: c.takes(Mark::Static),
    };
    if c.takes(Mark::Void) {
        let name = c.name()?;
        return function(c, ahead, None, name);
    }
    if c.takes(Mark::Struct) {
        c.expect(Mark::Pair)?;
        let name = c.name()?;
        return array(c, ahead, None, name);
    }
    let ty = wanted_type(c)?;
    let name = c.name()?;
    match c.mark_at(0) {
        Some(Mark::LeftParen) => function(c, ahead, Some(ty), name),
        Some(Mark::LeftBracket) => array(c, ahead, Some(ty), name),
        _ => variable(c, ahead, CVariableType::Scalar(ty), name),
    }
}

/// A prototype or a definition.
fn function(
    c: &mut Cursor<'_>,
    ahead: Ahead,
    given: Option<CType>,
    name: Name,
) -> Result<CItem, Wrong> {
    let prototype = prototype(c, ahead.is_static, given, name)?;
    if c.takes(Mark::Semicolon) {
        return Ok(CItem::Prototype(prototype));
    }
    defined(c, ahead.is_shared, prototype)
}

fn defined(c: &mut Cursor<'_>, is_shared: bool, prototype: CPrototype) -> Result<CItem, Wrong> {
    let body = body(c)?;
    Ok(CItem::Function(CFunction {
        is_shared,
        prototype,
        body,
    }))
}

/// An array, of pairs where it has no type.
fn array(c: &mut Cursor<'_>, ahead: Ahead, ty: Option<CType>, name: Name) -> Result<CItem, Wrong> {
    c.expect(Mark::LeftBracket)?;
    let count = c.constant()?;
    c.expect(Mark::RightBracket)?;
    let ty = match ty {
        None => CVariableType::Pairs(count),
        Some(CType::Char) => CVariableType::Chars(count),
        Some(_) => CVariableType::Ints(count),
    };
    variable(c, ahead, ty, name)
}

fn variable(
    c: &mut Cursor<'_>,
    ahead: Ahead,
    ty: CVariableType,
    name: Name,
) -> Result<CItem, Wrong> {
    let initialiser = initialiser(c)?;
    c.expect(Mark::Semicolon)?;
    if ahead.is_extern {
        return Ok(CItem::Extern(ty, name));
    }
    Ok(CItem::Variable(CVariable {
        is_shared: ahead.is_shared,
        is_static: ahead.is_static,
        ty,
        name,
        initialiser,
    }))
}

fn initialiser(c: &mut Cursor<'_>) -> Result<Option<CInitialiser>, Wrong> {
    if !c.takes(Mark::Assign) {
        return Ok(None);
    }
    if let Some(text) = c.text()? {
        return Ok(Some(CInitialiser::Text(text)));
    }
    Ok(Some(CInitialiser::Pairs(pairs(c)?)))
}

fn pair(c: &mut Cursor<'_>) -> Result<CPair, Wrong> {
    c.expect(Mark::LeftBrace)?;
    let number = c.constant()?;
    c.expect(Mark::Comma)?;
    let function = if c.sees_constant() {
        c.skip();
        None
    } else {
        Some(c.name()?)
    };
    c.expect(Mark::RightBrace)?;
    Ok(CPair { number, function })
}

fn pairs(c: &mut Cursor<'_>) -> Result<Items<CPair>, Wrong> {
    let mut found = Items::new(c.alloc);
    c.expect(Mark::LeftBrace)?;
    for _ in 0..c.len() {
        found.push(pair(c)?)?;
        if c.takes(Mark::RightBrace) {
            return Ok(found);
        }
        c.expect(Mark::Comma)?;
    }
    Err(c.wrong())
}
