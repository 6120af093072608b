//! Statements in which others stand, and bodies.

ghost use Rattle.std.specs.Prelude.{◌≡◌};
ghost use Rattle.cc_whole_reading.specs.Constants.{keeps};
ghost use Rattle.cc_whole_reading.specs.Parse.{Reads};
ghost use Rattle.cc_whole_read_expr.specs.ReadExpr as expressions;
ghost use Rattle.cc_whole_read_body.specs.ReadBody as spec;

use crate::effects::effect;
use crate::parts::{condition, continues, default_label, label, leaves, locals, returned};
use cc_whole::{CBody, CExpression, CStatement, CSwitchItem};
use cc_whole_reading::{Constants, Cursor, Stop};
use cc_whole_tokens::Mark;
use cf_base::{Boxed, Items};
use std::alloc::Global;

#[cycle(body)]
#[tactic(auto, unfolding(crate::specs::ReadBody::block))]
fn block(
    alloc: Global,
    constants: Constants,
    depth: usize,
    c: &mut Cursor<'_>,
) -> Result<CStatement, Stop>
    ensures { Reads (spec.block (spec.body (keeps constants) depth) c.old) result c.new }
{
    Ok(CStatement::Block(boxed_body(alloc, constants, depth, c)?))
}

#[cycle(body)]
fn boxed_body(
    alloc: Global,
    constants: Constants,
    depth: usize,
    c: &mut Cursor<'_>,
) -> Result<Boxed<CBody>, Stop>
    ensures { Reads (spec.body (keeps constants) depth c.old) result c.new }
{
    let inner = body(alloc, constants, depth, c)?;
    Ok(Boxed::new(alloc, inner)?)
}

#[cycle(body)]
#[tactic(auto, unfolding(crate::specs::ReadBody::otherwise))]
fn otherwise(
    alloc: Global,
    constants: Constants,
    depth: usize,
    c: &mut Cursor<'_>,
) -> Result<Option<Boxed<CBody>>, Stop>
    ensures { Reads (spec.otherwise (spec.body (keeps constants) depth) c.old) result c.new }
{
    if !c.sees(Mark::Else) {
        return Ok(None);
    }
    c.skip();
    some_body(alloc, constants, depth, c)
}

#[cycle(body)]
#[tactic(auto, unfolding(crate::specs::ReadBody::some_body))]
fn some_body(
    alloc: Global,
    constants: Constants,
    depth: usize,
    c: &mut Cursor<'_>,
) -> Result<Option<Boxed<CBody>>, Stop>
    ensures { Reads (spec.some_body (spec.body (keeps constants) depth) c.old) result c.new }
{
    Ok(Some(boxed_body(alloc, constants, depth, c)?))
}

/// The branches of an `if`.
#[cycle(body)]
#[tactic(auto, unfolding(crate::specs::ReadBody::branches))]
fn branches(
    alloc: Global,
    constants: Constants,
    depth: usize,
    condition: Boxed<CExpression>,
    c: &mut Cursor<'_>,
) -> Result<CStatement, Stop>
    ensures { Reads (spec.branches (spec.body (keeps constants) depth) condition c.old) result c.new }
{
    let then = boxed_body(alloc, constants, depth, c)?;
    let other = otherwise(alloc, constants, depth, c)?;
    Ok(CStatement::If(condition, then, other))
}

/// What stands behind `if`.
#[cycle(body)]
#[tactic(auto, unfolding(crate::specs::ReadBody::conditional))]
fn conditional(
    alloc: Global,
    constants: Constants,
    depth: usize,
    c: &mut Cursor<'_>,
) -> Result<CStatement, Stop>
    ensures { Reads (spec.conditional (expressions.expression (keeps constants) depth) (spec.body (keeps constants) depth) c.old) result c.new }
{
    let condition = condition(alloc, constants, depth, c)?;
    branches(alloc, constants, depth, condition, c)
}

/// What stands behind `for`.
#[cycle(body)]
#[tactic(auto, unfolding(crate::specs::ReadBody::forever))]
fn forever(
    alloc: Global,
    constants: Constants,
    depth: usize,
    c: &mut Cursor<'_>,
) -> Result<CStatement, Stop>
    ensures { Reads (spec.forever (spec.body (keeps constants) depth) c.old) result c.new }
{
    c.expect(Mark::LeftParen)?;
    c.expect(Mark::Semicolon)?;
    c.expect(Mark::Semicolon)?;
    c.expect(Mark::RightParen)?;
    Ok(CStatement::Loop(boxed_body(alloc, constants, depth, c)?))
}

#[cycle(body)]
#[tactic(auto, unfolding(crate::specs::ReadBody::inner))]
fn inner(
    alloc: Global,
    constants: Constants,
    depth: usize,
    c: &mut Cursor<'_>,
) -> Result<CSwitchItem, Stop>
    ensures { Reads (spec.inner (spec.one_statement (keeps constants) depth) c.old) result c.new }
{
    Ok(CSwitchItem::Statement(statement(alloc, constants, depth, c)?))
}

/// A label or a statement of a `switch`.
#[cycle(body)]
#[tactic(auto, unfolding(crate::specs::ReadBody::switch_item))]
fn switch_item(
    alloc: Global,
    constants: Constants,
    depth: usize,
    c: &mut Cursor<'_>,
) -> Result<CSwitchItem, Stop>
    ensures { Reads (spec.switch_item (keeps constants) (spec.one_statement (keeps constants) depth) c.old) result c.new }
{
    if c.sees(Mark::Case) {
        c.skip();
        return label(constants, c);
    }
    if c.sees(Mark::Default) {
        c.skip();
        return default_label(c);
    }
    inner(alloc, constants, depth, c)
}

#[cycle(body)]
fn switch_items(
    alloc: Global,
    constants: Constants,
    depth: usize,
    c: &mut Cursor<'_>,
) -> Result<Items<CSwitchItem>, Stop>
    ensures { Reads (spec.switch_items (keeps constants) (spec.one_statement (keeps constants) depth) c.old) result c.new }
{
    let mut found = Items::new(alloc);
    for _turn in 0..c.len() {
        if c.sees(Mark::RightBrace) {
            return Ok(found);
        }
        found.push(switch_item(alloc, constants, depth, c)?)?;
    }
    Ok(found)
}

/// What a `switch` has in its braces.
#[cycle(body)]
#[tactic(auto, unfolding(crate::specs::ReadBody::cases))]
fn cases(
    alloc: Global,
    constants: Constants,
    depth: usize,
    value: Boxed<CExpression>,
    c: &mut Cursor<'_>,
) -> Result<CStatement, Stop>
    ensures { Reads (spec.cases (keeps constants) (spec.one_statement (keeps constants) depth) value c.old) result c.new }
{
    c.expect(Mark::LeftBrace)?;
    let items = switch_items(alloc, constants, depth, c)?;
    c.expect(Mark::RightBrace)?;
    Ok(CStatement::Switch(value, items))
}

/// What stands behind `switch`.
#[cycle(body)]
#[tactic(auto, unfolding(crate::specs::ReadBody::switch))]
fn switch(
    alloc: Global,
    constants: Constants,
    depth: usize,
    c: &mut Cursor<'_>,
) -> Result<CStatement, Stop>
    ensures { Reads (spec.switch (keeps constants) (expressions.expression (keeps constants) depth) (spec.one_statement (keeps constants) depth) c.old) result c.new }
{
    let value = condition(alloc, constants, depth, c)?;
    cases(alloc, constants, depth, value, c)
}

/// A statement without a word at its front.
#[cycle(body)]
#[tactic(auto, unfolding(crate::specs::ReadBody::plain))]
fn plain(
    alloc: Global,
    constants: Constants,
    depth: usize,
    c: &mut Cursor<'_>,
) -> Result<CStatement, Stop>
    ensures { Reads (spec.plain (expressions.expression (keeps constants) depth) (spec.body (keeps constants) depth) c.old) result c.new }
{
    if c.sees(Mark::LeftBrace) {
        block(alloc, constants, depth, c)
    } else {
        effect(alloc, constants, depth, c)
    }
}

#[cycle(body)]
#[tactic(auto, unfolding(crate::specs::ReadBody::leaving))]
fn leaving(
    alloc: Global,
    constants: Constants,
    depth: usize,
    c: &mut Cursor<'_>,
) -> Result<CStatement, Stop>
    ensures { Reads (spec.leaving (expressions.expression (keeps constants) depth) (spec.body (keeps constants) depth) c.old) result c.new }
{
    if c.sees(Mark::Break) {
        c.skip();
        leaves(c)
    } else if c.sees(Mark::Continue) {
        c.skip();
        continues(c)
    } else if c.sees(Mark::Return) {
        c.skip();
        returned(alloc, constants, depth, c)
    } else {
        plain(alloc, constants, depth, c)
    }
}

#[cycle(body)]
#[tactic(auto, unfolding(crate::specs::ReadBody::statement_by))]
fn statement_within(
    alloc: Global,
    constants: Constants,
    depth: usize,
    c: &mut Cursor<'_>,
) -> Result<CStatement, Stop>
    ensures { Reads (spec.statement_by (keeps constants) (expressions.expression (keeps constants) depth) (spec.body (keeps constants) depth) (spec.one_statement (keeps constants) depth) c.old) result c.new }
{
    if c.sees(Mark::If) {
        c.skip();
        conditional(alloc, constants, depth, c)
    } else if c.sees(Mark::For) {
        c.skip();
        forever(alloc, constants, depth, c)
    } else if c.sees(Mark::Switch) {
        c.skip();
        switch(alloc, constants, depth, c)
    } else {
        leaving(alloc, constants, depth, c)
    }
}

/// A statement, in which others stand less than `depth` deep.
#[cycle(body)]
fn statement(
    alloc: Global,
    constants: Constants,
    depth: usize,
    c: &mut Cursor<'_>,
) -> Result<CStatement, Stop>
    ensures { Reads (spec.one_statement (keeps constants) depth c.old) result c.new }
{
    if depth == 0 {
        return Err(c.refusal());
    }
    statement_within(alloc, constants, depth - 1, c)
}

#[cycle(body)]
fn statements(
    alloc: Global,
    constants: Constants,
    depth: usize,
    c: &mut Cursor<'_>,
) -> Result<Items<CStatement>, Stop>
    ensures { Reads (spec.statements (spec.one_statement (keeps constants) depth) c.old) result c.new }
{
    let mut found = Items::new(alloc);
    for _turn in 0..c.len() {
        if c.sees(Mark::RightBrace) {
            return Ok(found);
        }
        found.push(statement(alloc, constants, depth, c)?)?;
    }
    Ok(found)
}

/// Takes a body, in which statements stand at most `depth` deep.
#[cycle(body)]
#[tactic(auto, unfolding(crate::specs::ReadBody::body_by))]
pub fn body(
    alloc: Global,
    constants: Constants,
    depth: usize,
    c: &mut Cursor<'_>,
) -> Result<CBody, Stop>
    ensures { Reads (spec.body (keeps constants) depth c.old) result c.new }
{
    c.expect(Mark::LeftBrace)?;
    let locals = locals(alloc, constants, c)?;
    let statements = statements(alloc, constants, depth, c)?;
    c.expect(Mark::RightBrace)?;
    Ok(CBody { locals, statements })
}
