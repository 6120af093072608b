//! What stands in a variable before a run.

ghost use Rattle.std.specs.Prelude.{◌≡◌, ◌∷◌, [], Ok};
ghost use Rattle.cc_whole_reading.specs.Constants.{keeps};
ghost use Rattle.cc_whole_reading.specs.Parse.{Reads};
ghost use Rattle.cc_whole_read_items.specs.ReadItems as spec;

use cc_whole::{CConstant, CInitialiser, CPair};
use cc_whole_reading::{Constants, Cursor, Stop};
use cc_whole_tokens::Mark;
use cf_base::{Items, Name};
use std::alloc::Global;

#[tactic(auto, unfolding(crate::specs::ReadItems::some_function))]
fn some_function(alloc: Global, c: &mut Cursor<'_>) -> Result<Option<Name>, Stop>
    ensures { Reads (spec.some_function c.old) result c.new }
{
    Ok(Some(c.name(alloc)?))
}

#[tactic(auto, unfolding(crate::specs::ReadItems::no_function))]
fn no_function(c: &mut Cursor<'_>) -> Result<Option<Name>, Stop>
    ensures { Reads (spec.no_function c.old) result c.new }
{
    c.nought()?;
    Ok(None)
}

/// The function of a pair, or none for 0.
#[tactic(auto, unfolding(crate::specs::ReadItems::pair_function))]
fn pair_function(alloc: Global, c: &mut Cursor<'_>) -> Result<Option<Name>, Stop>
    ensures { Reads (spec.pair_function c.old) result c.new }
{
    if c.sees_name() {
        some_function(alloc, c)
    } else {
        no_function(c)
    }
}

/// A pair, behind its number.
#[tactic(auto, unfolding(crate::specs::ReadItems::pair_of))]
fn pair_of(alloc: Global, number: CConstant, c: &mut Cursor<'_>) -> Result<CPair, Stop>
    ensures { Reads (spec.pair_of number c.old) result c.new }
{
    c.expect(Mark::Comma)?;
    let function = pair_function(alloc, c)?;
    c.expect(Mark::RightBrace)?;
    Ok(CPair { number, function })
}

#[tactic(auto, unfolding(crate::specs::ReadItems::pair))]
fn pair(alloc: Global, constants: Constants, c: &mut Cursor<'_>) -> Result<CPair, Stop>
    ensures { Reads (spec.pair (keeps constants) c.old) result c.new }
{
    c.expect(Mark::LeftBrace)?;
    let number = c.constant(constants)?;
    pair_of(alloc, number, c)
}

fn only_pair(alloc: Global, item: CPair) -> Result<Items<CPair>, Stop>
    ensures { Reads (Ok (item ∷ [], [])) result [] }
{
    let mut found = Items::new(alloc);
    found.push(item)?;
    Ok(found)
}

fn more_pairs(
    alloc: Global,
    constants: Constants,
    first: Items<CPair>,
    c: &mut Cursor<'_>,
) -> Result<Items<CPair>, Stop>
    ensures { Reads (spec.more_pairs (keeps constants) first c.old) result c.new }
{
    let mut found = first;
    for _turn in 0..c.len() {
        if !c.sees(Mark::Comma) {
            return Ok(found);
        }
        c.skip();
        found.push(pair(alloc, constants, c)?)?;
    }
    Ok(found)
}

#[tactic(auto, unfolding(crate::specs::ReadItems::some_pairs))]
fn some_pairs(alloc: Global, constants: Constants, c: &mut Cursor<'_>) -> Result<Items<CPair>, Stop>
    ensures { Reads (spec.some_pairs (keeps constants) c.old) result c.new }
{
    let first = pair(alloc, constants, c)?;
    let found = only_pair(alloc, first)?;
    more_pairs(alloc, constants, found, c)
}

#[tactic(auto, unfolding(crate::specs::ReadItems::string))]
fn string(alloc: Global, c: &mut Cursor<'_>) -> Result<Option<CInitialiser>, Stop>
    ensures { Reads (spec.string c.old) result c.new }
{
    Ok(Some(CInitialiser::Text(c.text(alloc)?)))
}

#[tactic(auto, unfolding(crate::specs::ReadItems::pairs))]
fn pairs(
    alloc: Global,
    constants: Constants,
    c: &mut Cursor<'_>,
) -> Result<Option<CInitialiser>, Stop>
    ensures { Reads (spec.pairs (keeps constants) c.old) result c.new }
{
    c.expect(Mark::LeftBrace)?;
    let all = some_pairs(alloc, constants, c)?;
    c.expect(Mark::RightBrace)?;
    Ok(Some(CInitialiser::Pairs(all)))
}

/// What stands behind `=`.
#[tactic(auto, unfolding(crate::specs::ReadItems::values))]
fn values(
    alloc: Global,
    constants: Constants,
    c: &mut Cursor<'_>,
) -> Result<Option<CInitialiser>, Stop>
    ensures { Reads (spec.values (keeps constants) c.old) result c.new }
{
    if c.sees_text() {
        string(alloc, c)
    } else {
        pairs(alloc, constants, c)
    }
}

/// Takes `=` and a string or pairs, or nothing.
#[tactic(auto, unfolding(crate::specs::ReadItems::start))]
pub fn start(
    alloc: Global,
    constants: Constants,
    c: &mut Cursor<'_>,
) -> Result<Option<CInitialiser>, Stop>
    ensures { Reads (spec.start (keeps constants) c.old) result c.new }
{
    if c.sees(Mark::Assign) {
        c.skip();
        return values(alloc, constants, c);
    }
    Ok(None)
}
