//! Statements that call or assign.

ghost use Rattle.std.specs.Prelude.{◌≡◌};
ghost use Rattle.cc_whole_reading.specs.Constants.{keeps};
ghost use Rattle.cc_whole_reading.specs.Parse.{Reads};
ghost use Rattle.cc_whole_reading.specs.Parse as parse;
ghost use Rattle.cc_whole_read_expr.specs.ReadExpr as expressions;
ghost use Rattle.cc_whole_read_body.specs.ReadBody as spec;

use cc_whole::{CCallee, CExpression, CPlace, CStatement};
use cc_whole_read_expr::{arguments, callee, expression, place};
use cc_whole_reading::{Constants, Cursor, Stop};
use cc_whole_tokens::Mark;
use cf_base::{Boxed, Items};
use std::alloc::Global;

/// What is called, with its arguments.
#[derive(Drop)]
pub struct CallParts {
    pub callee: CCallee,
    pub arguments: Items<CExpression>,
}

/// What stands behind the `=` of an assignment.
#[derive(Drop)]
pub enum Right {
    Value(Boxed<CExpression>),
    Call(CallParts),
}

/// A call, behind what it calls.
#[tactic(auto, unfolding(crate::specs::ReadBody::called_of))]
fn called_of(
    alloc: Global,
    constants: Constants,
    depth: usize,
    callee: CCallee,
    c: &mut Cursor<'_>,
) -> Result<CallParts, Stop>
    ensures { Reads (spec.called_of (expressions.expression (keeps constants) depth) callee c.old) result c.new }
{
    c.expect(Mark::LeftParen)?;
    let arguments = arguments(alloc, constants, depth, c)?;
    c.expect(Mark::RightParen)?;
    c.expect(Mark::Semicolon)?;
    Ok(CallParts { callee, arguments })
}

#[tactic(auto, unfolding(crate::specs::ReadBody::called))]
fn called(
    alloc: Global,
    constants: Constants,
    depth: usize,
    c: &mut Cursor<'_>,
) -> Result<CallParts, Stop>
    ensures { Reads (spec.called (expressions.expression (keeps constants) depth) c.old) result c.new }
{
    let callee = callee(alloc, constants, depth, c)?;
    called_of(alloc, constants, depth, callee, c)
}

#[tactic(auto, unfolding(crate::specs::ReadBody::right_call))]
fn right_call(
    alloc: Global,
    constants: Constants,
    depth: usize,
    c: &mut Cursor<'_>,
) -> Result<Right, Stop>
    ensures { Reads (spec.right_call (expressions.expression (keeps constants) depth) c.old) result c.new }
{
    Ok(Right::Call(called(alloc, constants, depth, c)?))
}

#[tactic(auto, unfolding(crate::specs::ReadBody::value))]
fn value(
    alloc: Global,
    constants: Constants,
    depth: usize,
    c: &mut Cursor<'_>,
) -> Result<Right, Stop>
    ensures { Reads (spec.value (expressions.expression (keeps constants) depth) c.old) result c.new }
{
    let value = expression(alloc, constants, depth, c)?;
    c.expect(Mark::Semicolon)?;
    Ok(Right::Value(value))
}

/// The later one of two refusals, the first of which leaves so many tokens.
fn later_of(left: usize, second: Stop) -> Stop
    ensures { result ≡ parse.later_of left second }
{
    match second {
        Stop::NotC { left: other } => {
            if left <= other {
                Stop::NotC { left }
            } else {
                second
            }
        }
        _ => second,
    }
}

/// What stands behind `=`: what is no expression is a call.
#[tactic(auto, unfolding(crate::specs::ReadBody::right_side))]
fn right_side(
    alloc: Global,
    constants: Constants,
    depth: usize,
    c: &mut Cursor<'_>,
) -> Result<Right, Stop>
    ensures { Reads (spec.right_side (expressions.expression (keeps constants) depth) c.old) result c.new }
{
    let mut again = c.again();
    match value(alloc, constants, depth, c) {
        Ok(found) => Ok(found),
        Err(Stop::NotC { left }) => match right_call(alloc, constants, depth, &mut again) {
            Ok(found) => {
                *c = again;
                Ok(found)
            }
            Err(second) => Err(later_of(left, second)),
        },
        Err(e) => Err(e),
    }
}

fn stored(place: CPlace, right: Right) -> CStatement
    ensures { result ≡ spec.stored place right }
{
    match right {
        Right::Value(value) => CStatement::Assign(place, value),
        Right::Call(call) => CStatement::Call(Some(place), call.callee, call.arguments),
    }
}

/// What is stored, behind the place.
#[tactic(auto, unfolding(crate::specs::ReadBody::store_to))]
fn store_to(
    alloc: Global,
    constants: Constants,
    depth: usize,
    place: CPlace,
    c: &mut Cursor<'_>,
) -> Result<CStatement, Stop>
    ensures { Reads (spec.store_to (expressions.expression (keeps constants) depth) place c.old) result c.new }
{
    c.expect(Mark::Assign)?;
    let right = right_side(alloc, constants, depth, c)?;
    Ok(stored(place, right))
}

#[tactic(auto, unfolding(crate::specs::ReadBody::store))]
fn store(
    alloc: Global,
    constants: Constants,
    depth: usize,
    c: &mut Cursor<'_>,
) -> Result<CStatement, Stop>
    ensures { Reads (spec.store (expressions.expression (keeps constants) depth) c.old) result c.new }
{
    let place = place(alloc, constants, depth, c)?;
    store_to(alloc, constants, depth, place, c)
}

/// A call whose result is not stored.
#[tactic(auto, unfolding(crate::specs::ReadBody::call))]
fn call(
    alloc: Global,
    constants: Constants,
    depth: usize,
    c: &mut Cursor<'_>,
) -> Result<CStatement, Stop>
    ensures { Reads (spec.call (expressions.expression (keeps constants) depth) c.old) result c.new }
{
    let call = called(alloc, constants, depth, c)?;
    Ok(CStatement::Call(None, call.callee, call.arguments))
}

/// An assignment or a call: what does not store is a call.
#[tactic(auto, unfolding(crate::specs::ReadBody::effect))]
pub fn effect(
    alloc: Global,
    constants: Constants,
    depth: usize,
    c: &mut Cursor<'_>,
) -> Result<CStatement, Stop>
    ensures { Reads (spec.effect (expressions.expression (keeps constants) depth) c.old) result c.new }
{
    let mut again = c.again();
    match store(alloc, constants, depth, c) {
        Ok(found) => Ok(found),
        Err(Stop::NotC { left }) => match call(alloc, constants, depth, &mut again) {
            Ok(found) => {
                *c = again;
                Ok(found)
            }
            Err(second) => Err(later_of(left, second)),
        },
        Err(e) => Err(e),
    }
}
