//! Types of functions.

ghost use Rattle.std.specs.Prelude.{◌≡◌, ◌∷◌, [], Ok};
ghost use Rattle.cc_whole_reading.specs.Parse.{Reads};
ghost use Rattle.cc_whole_read_types.specs.ReadTypes as spec;

use crate::types::{result_type, type_name};
use cc_whole::{CSignature, CType};
use cc_whole_reading::{Cursor, Stop};
use cc_whole_tokens::Mark;
use cf_base::Items;
use std::alloc::Global;

fn only_type(alloc: Global, ty: CType) -> Result<Items<CType>, Stop>
    ensures { Reads (Ok (ty ∷ [], [])) result [] }
{
    let mut found = Items::new(alloc);
    found.push(ty)?;
    Ok(found)
}

fn more_types(first: Items<CType>, c: &mut Cursor<'_>) -> Result<Items<CType>, Stop>
    ensures { Reads (spec.more_types first c.old) result c.new }
{
    let mut found = first;
    for _turn in 0..c.len() {
        if !c.sees(Mark::Comma) {
            return Ok(found);
        }
        c.skip();
        found.push(type_name(c)?)?;
    }
    Ok(found)
}

#[tactic(auto, unfolding(crate::specs::ReadTypes::some_types))]
fn some_types(alloc: Global, c: &mut Cursor<'_>) -> Result<Items<CType>, Stop>
    ensures { Reads (spec.some_types c.old) result c.new }
{
    let first = type_name(c)?;
    let found = only_type(alloc, first)?;
    more_types(found, c)
}

/// The types of parameters, or none for `void`.
#[tactic(auto, unfolding(crate::specs::ReadTypes::types))]
fn types(alloc: Global, c: &mut Cursor<'_>) -> Result<Items<CType>, Stop>
    ensures { Reads (spec.types c.old) result c.new }
{
    if c.sees(Mark::Void) {
        c.skip();
        return Ok(Items::new(alloc));
    }
    some_types(alloc, c)
}

/// The rest of the type of a function, behind its result.
#[tactic(auto, unfolding(crate::specs::ReadTypes::parameters_of))]
fn parameters_of(
    alloc: Global,
    given: Option<CType>,
    c: &mut Cursor<'_>,
) -> Result<CSignature, Stop>
    ensures { Reads (spec.parameters_of given c.old) result c.new }
{
    c.expect(Mark::LeftParen)?;
    c.expect(Mark::Star)?;
    c.expect(Mark::RightParen)?;
    c.expect(Mark::LeftParen)?;
    let parameters = types(alloc, c)?;
    c.expect(Mark::RightParen)?;
    c.expect(Mark::RightParen)?;
    Ok(CSignature {
        result: given,
        parameters,
    })
}

/// Takes `(type (*)(types))`, the type of a function that is called through a pointer.
#[tactic(auto, unfolding(crate::specs::ReadTypes::signature))]
pub fn signature(alloc: Global, c: &mut Cursor<'_>) -> Result<CSignature, Stop>
    ensures { Reads (spec.signature c.old) result c.new }
{
    c.expect(Mark::LeftParen)?;
    let given = result_type(c)?;
    parameters_of(alloc, given, c)
}
