//! Locals, labels, and what stands in a statement without another.

ghost use Rattle.std.specs.Prelude.{◌≡◌};
ghost use Rattle.cc_whole_reading.specs.Constants.{keeps};
ghost use Rattle.cc_whole_reading.specs.Parse.{Reads};
ghost use Rattle.cc_whole_read_expr.specs.ReadExpr as expressions;
ghost use Rattle.cc_whole_read_body.specs.ReadBody as spec;

use cc_whole::{CExpression, CLocal, CStatement, CSwitchItem};
use cc_whole_read_expr::expression;
use cc_whole_read_types::{one_local, sees_type};
use cc_whole_reading::{Constants, Cursor, Stop};
use cc_whole_tokens::Mark;
use cf_base::{Boxed, Items};
use std::alloc::Global;

#[tactic(auto, unfolding(crate::specs::ReadBody::local_line))]
fn local_line(alloc: Global, constants: Constants, c: &mut Cursor<'_>) -> Result<CLocal, Stop>
    ensures { Reads (spec.local_line (keeps constants) c.old) result c.new }
{
    let local = one_local(alloc, constants, c)?;
    c.expect(Mark::Semicolon)?;
    Ok(local)
}

/// The locals of a body.
pub fn locals(
    alloc: Global,
    constants: Constants,
    c: &mut Cursor<'_>,
) -> Result<Items<CLocal>, Stop>
    ensures { Reads (spec.locals (keeps constants) c.old) result c.new }
{
    let mut found = Items::new(alloc);
    for _turn in 0..c.len() {
        if !sees_type(c) {
            return Ok(found);
        }
        found.push(local_line(alloc, constants, c)?)?;
    }
    Ok(found)
}

/// What stands behind `break`.
#[tactic(auto, unfolding(crate::specs::ReadBody::leaves))]
pub fn leaves(c: &mut Cursor<'_>) -> Result<CStatement, Stop>
    ensures { Reads (spec.leaves c.old) result c.new }
{
    c.expect(Mark::Semicolon)?;
    Ok(CStatement::Break)
}

/// What stands behind `continue`.
#[tactic(auto, unfolding(crate::specs::ReadBody::continues))]
pub fn continues(c: &mut Cursor<'_>) -> Result<CStatement, Stop>
    ensures { Reads (spec.continues c.old) result c.new }
{
    c.expect(Mark::Semicolon)?;
    Ok(CStatement::Continue)
}

/// An expression in brackets.
#[tactic(auto, unfolding(crate::specs::ReadBody::condition))]
pub fn condition(
    alloc: Global,
    constants: Constants,
    depth: usize,
    c: &mut Cursor<'_>,
) -> Result<Boxed<CExpression>, Stop>
    ensures { Reads (spec.condition (expressions.expression (keeps constants) depth) c.old) result c.new }
{
    c.expect(Mark::LeftParen)?;
    let value = expression(alloc, constants, depth, c)?;
    c.expect(Mark::RightParen)?;
    Ok(value)
}

#[tactic(auto, unfolding(crate::specs::ReadBody::gives))]
fn gives(
    alloc: Global,
    constants: Constants,
    depth: usize,
    c: &mut Cursor<'_>,
) -> Result<CStatement, Stop>
    ensures { Reads (spec.gives (expressions.expression (keeps constants) depth) c.old) result c.new }
{
    let value = expression(alloc, constants, depth, c)?;
    c.expect(Mark::Semicolon)?;
    Ok(CStatement::Return(Some(value)))
}

/// What stands behind `return`.
#[tactic(auto, unfolding(crate::specs::ReadBody::returned))]
pub fn returned(
    alloc: Global,
    constants: Constants,
    depth: usize,
    c: &mut Cursor<'_>,
) -> Result<CStatement, Stop>
    ensures { Reads (spec.returned (expressions.expression (keeps constants) depth) c.old) result c.new }
{
    if c.sees(Mark::Semicolon) {
        c.skip();
        return Ok(CStatement::Return(None));
    }
    gives(alloc, constants, depth, c)
}

/// What stands behind `case`.
#[tactic(auto, unfolding(crate::specs::ReadBody::label))]
pub fn label(constants: Constants, c: &mut Cursor<'_>) -> Result<CSwitchItem, Stop>
    ensures { Reads (spec.label (keeps constants) c.old) result c.new }
{
    let label = c.constant(constants)?;
    c.expect(Mark::Colon)?;
    Ok(CSwitchItem::Case(label))
}

/// What stands behind `default`.
#[tactic(auto, unfolding(crate::specs::ReadBody::default_label))]
pub fn default_label(c: &mut Cursor<'_>) -> Result<CSwitchItem, Stop>
    ensures { Reads (spec.default_label c.old) result c.new }
{
    c.expect(Mark::Colon)?;
    Ok(CSwitchItem::Default)
}
