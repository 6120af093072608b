//! Places and arguments.

ghost use Rattle.std.specs.Prelude.{◌≡◌, ◌∷◌, [], Ok};
ghost use Rattle.cc_whole_reading.specs.Constants.{keeps};
ghost use Rattle.cc_whole_reading.specs.Parse.{Reads};
ghost use Rattle.cc_whole_read_expr.specs.ReadExpr as spec;

use crate::expressions::{expression, pointed};
use cc_whole::{CExpression, CPlace};
use cc_whole_reading::{Constants, Cursor, Stop};
use cc_whole_tokens::Mark;
use cf_base::{Boxed, Items};
use std::alloc::Global;

#[tactic(auto, unfolding(crate::specs::ReadExpr::named_place))]
fn named_place(alloc: Global, c: &mut Cursor<'_>) -> Result<CPlace, Stop>
    ensures { Reads (spec.named_place c.old) result c.new }
{
    Ok(CPlace::Name(c.name(alloc)?))
}

/// Takes a place, in which operands stand at most `depth` deep.
#[tactic(auto, unfolding(crate::specs::ReadExpr::one_place))]
pub fn place(
    alloc: Global,
    constants: Constants,
    depth: usize,
    c: &mut Cursor<'_>,
) -> Result<CPlace, Stop>
    ensures { Reads (spec.one_place (spec.expression (keeps constants) depth) c.old) result c.new }
{
    if c.sees(Mark::Star) {
        c.skip();
        return pointed(alloc, constants, depth, c);
    }
    named_place(alloc, c)
}

fn only_argument(alloc: Global, item: Boxed<CExpression>) -> Result<Items<CExpression>, Stop>
    ensures { Reads (Ok (item ∷ [], [])) result [] }
{
    let mut found = Items::new(alloc);
    found.push(item.into_inner())?;
    Ok(found)
}

fn more_arguments(
    alloc: Global,
    constants: Constants,
    depth: usize,
    first: Items<CExpression>,
    c: &mut Cursor<'_>,
) -> Result<Items<CExpression>, Stop>
    ensures { Reads (spec.more_arguments (spec.expression (keeps constants) depth) first c.old) result c.new }
{
    let mut found = first;
    for _turn in 0..c.len() {
        if !c.sees(Mark::Comma) {
            return Ok(found);
        }
        c.skip();
        let next = expression(alloc, constants, depth, c)?;
        found.push(next.into_inner())?;
    }
    Ok(found)
}

#[tactic(auto, unfolding(crate::specs::ReadExpr::some_arguments))]
fn some_arguments(
    alloc: Global,
    constants: Constants,
    depth: usize,
    c: &mut Cursor<'_>,
) -> Result<Items<CExpression>, Stop>
    ensures { Reads (spec.some_arguments (spec.expression (keeps constants) depth) c.old) result c.new }
{
    let first = expression(alloc, constants, depth, c)?;
    let found = only_argument(alloc, first)?;
    more_arguments(alloc, constants, depth, found, c)
}

/// Takes what stands between the brackets of a call.
#[tactic(auto, unfolding(crate::specs::ReadExpr::arguments))]
pub fn arguments(
    alloc: Global,
    constants: Constants,
    depth: usize,
    c: &mut Cursor<'_>,
) -> Result<Items<CExpression>, Stop>
    ensures { Reads (spec.arguments (spec.expression (keeps constants) depth) c.old) result c.new }
{
    if c.sees(Mark::RightParen) {
        return Ok(Items::new(alloc));
    }
    some_arguments(alloc, constants, depth, c)
}
