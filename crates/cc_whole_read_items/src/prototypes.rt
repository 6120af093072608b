//! Prototypes.

ghost use Rattle.std.specs.Prelude.{◌≡◌, ◌∷◌, [], Ok};
ghost use Rattle.cc_whole_reading.specs.Parse.{Reads};
ghost use Rattle.cc_whole_read_items.specs.ReadItems as spec;

use cc_whole::{CParameter, CPrototype, CType};
use cc_whole_read_types::{result_type, type_name};
use cc_whole_reading::{Cursor, Stop};
use cc_whole_tokens::Mark;
use cf_base::{Items, Name};
use std::alloc::Global;

/// Whether `static` comes next, and goes past it.
#[tactic(auto, unfolding(crate::specs::ReadItems::static_word))]
pub fn static_word(c: &mut Cursor<'_>) -> Result<bool, Stop>
    ensures { Reads (spec.static_word c.old) result c.new }
{
    if c.sees(Mark::Static) {
        c.skip();
        return Ok(true);
    }
    Ok(false)
}

#[tactic(auto, unfolding(crate::specs::ReadItems::parameter_named))]
fn parameter_named(alloc: Global, ty: CType, c: &mut Cursor<'_>) -> Result<CParameter, Stop>
    ensures { Reads (spec.parameter_named ty c.old) result c.new }
{
    let name = c.name(alloc)?;
    Ok(CParameter { ty, name })
}

#[tactic(auto, unfolding(crate::specs::ReadItems::parameter))]
fn parameter(alloc: Global, c: &mut Cursor<'_>) -> Result<CParameter, Stop>
    ensures { Reads (spec.parameter c.old) result c.new }
{
    let ty = type_name(c)?;
    parameter_named(alloc, ty, c)
}

fn only_parameter(alloc: Global, item: CParameter) -> Result<Items<CParameter>, Stop>
    ensures { Reads (Ok (item ∷ [], [])) result [] }
{
    let mut found = Items::new(alloc);
    found.push(item)?;
    Ok(found)
}

fn more_parameters(
    alloc: Global,
    first: Items<CParameter>,
    c: &mut Cursor<'_>,
) -> Result<Items<CParameter>, Stop>
    ensures { Reads (spec.more_parameters first c.old) result c.new }
{
    let mut found = first;
    for _turn in 0..c.len() {
        if !c.sees(Mark::Comma) {
            return Ok(found);
        }
        c.skip();
        found.push(parameter(alloc, c)?)?;
    }
    Ok(found)
}

#[tactic(auto, unfolding(crate::specs::ReadItems::some_parameters))]
fn some_parameters(alloc: Global, c: &mut Cursor<'_>) -> Result<Items<CParameter>, Stop>
    ensures { Reads (spec.some_parameters c.old) result c.new }
{
    let first = parameter(alloc, c)?;
    let found = only_parameter(alloc, first)?;
    more_parameters(alloc, found, c)
}

/// What stands between the brackets of a prototype.
#[tactic(auto, unfolding(crate::specs::ReadItems::parameters))]
fn parameters(alloc: Global, c: &mut Cursor<'_>) -> Result<Items<CParameter>, Stop>
    ensures { Reads (spec.parameters c.old) result c.new }
{
    if c.sees(Mark::Void) {
        c.skip();
        return Ok(Items::new(alloc));
    }
    some_parameters(alloc, c)
}

/// A prototype, behind its name.
#[tactic(auto, unfolding(crate::specs::ReadItems::prototype_of))]
fn prototype_of(
    alloc: Global,
    is_static: bool,
    given: Option<CType>,
    name: Name,
    c: &mut Cursor<'_>,
) -> Result<CPrototype, Stop>
    ensures { Reads (spec.prototype_of is_static given name c.old) result c.new }
{
    c.expect(Mark::LeftParen)?;
    let parameters = parameters(alloc, c)?;
    c.expect(Mark::RightParen)?;
    Ok(CPrototype {
        is_static,
        result: given,
        name,
        parameters,
    })
}

#[tactic(auto, unfolding(crate::specs::ReadItems::prototype_named))]
fn prototype_named(
    alloc: Global,
    is_static: bool,
    given: Option<CType>,
    c: &mut Cursor<'_>,
) -> Result<CPrototype, Stop>
    ensures { Reads (spec.prototype_named is_static given c.old) result c.new }
{
    let name = c.name(alloc)?;
    prototype_of(alloc, is_static, given, name, c)
}

#[tactic(auto, unfolding(crate::specs::ReadItems::prototype_behind))]
fn prototype_behind(alloc: Global, is_static: bool, c: &mut Cursor<'_>) -> Result<CPrototype, Stop>
    ensures { Reads (spec.prototype_behind is_static c.old) result c.new }
{
    let given = result_type(c)?;
    prototype_named(alloc, is_static, given, c)
}

/// Takes the head of a function.
#[tactic(auto, unfolding(crate::specs::ReadItems::prototype))]
pub fn prototype(alloc: Global, c: &mut Cursor<'_>) -> Result<CPrototype, Stop>
    ensures { Reads (spec.prototype c.old) result c.new }
{
    let is_static = static_word(c)?;
    prototype_behind(alloc, is_static, c)
}
