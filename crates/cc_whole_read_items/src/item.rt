//! Items.

ghost use Rattle.std.specs.Prelude.{◌≡◌, true, false};
ghost use Rattle.cc_whole_reading.specs.Constants.{keeps};
ghost use Rattle.cc_whole_reading.specs.Parse.{Reads};
ghost use Rattle.cc_whole_read_items.specs.ReadItems as spec;

use crate::initial::start;
use crate::later::later_of;
use crate::prototypes::{prototype, static_word};
use cc_whole::{CFunction, CItem, CPrototype, CVariable};
use cc_whole_read_body::body;
use cc_whole_read_types::{Declared, one_variable};
use cc_whole_reading::{Constants, Cursor, Stop};
use cc_whole_tokens::Mark;
use cf_base::Items;
use std::alloc::Global;

#[tactic(auto, unfolding(crate::specs::ReadItems::prototype_line))]
fn prototype_line(alloc: Global, c: &mut Cursor<'_>) -> Result<CItem, Stop>
    ensures { Reads (spec.prototype_line c.old) result c.new }
{
    let prototype = prototype(alloc, c)?;
    c.expect(Mark::Semicolon)?;
    Ok(CItem::Prototype(prototype))
}

#[tactic(auto, unfolding(crate::specs::ReadItems::extern_line))]
fn extern_line(alloc: Global, constants: Constants, c: &mut Cursor<'_>) -> Result<CItem, Stop>
    ensures { Reads (spec.extern_line (keeps constants) c.old) result c.new }
{
    let declared = one_variable(alloc, constants, c)?;
    c.expect(Mark::Semicolon)?;
    Ok(CItem::Extern(declared.ty, declared.name))
}

#[tactic(auto, unfolding(crate::specs::ReadItems::function_of))]
fn function_of(
    alloc: Global,
    constants: Constants,
    depth: usize,
    is_shared: bool,
    prototype: CPrototype,
    c: &mut Cursor<'_>,
) -> Result<CItem, Stop>
    ensures { Reads (spec.function_of (keeps constants) depth is_shared prototype c.old) result c.new }
{
    let body = body(alloc, constants, depth, c)?;
    Ok(CItem::Function(CFunction {
        is_shared,
        prototype,
        body,
    }))
}

#[tactic(auto, unfolding(crate::specs::ReadItems::function))]
fn function(
    alloc: Global,
    constants: Constants,
    depth: usize,
    is_shared: bool,
    c: &mut Cursor<'_>,
) -> Result<CItem, Stop>
    ensures { Reads (spec.function (keeps constants) depth is_shared c.old) result c.new }
{
    let prototype = prototype(alloc, c)?;
    function_of(alloc, constants, depth, is_shared, prototype, c)
}

/// A variable, behind its type and name.
#[tactic(auto, unfolding(crate::specs::ReadItems::variable_of))]
fn variable_of(
    alloc: Global,
    constants: Constants,
    is_shared: bool,
    is_static: bool,
    declared: Declared,
    c: &mut Cursor<'_>,
) -> Result<CItem, Stop>
    ensures { Reads (spec.variable_of (keeps constants) is_shared is_static declared c.old) result c.new }
{
    let initialiser = start(alloc, constants, c)?;
    c.expect(Mark::Semicolon)?;
    Ok(CItem::Variable(CVariable {
        is_shared,
        is_static,
        ty: declared.ty,
        name: declared.name,
        initialiser,
    }))
}

#[tactic(auto, unfolding(crate::specs::ReadItems::variable_behind))]
fn variable_behind(
    alloc: Global,
    constants: Constants,
    is_shared: bool,
    is_static: bool,
    c: &mut Cursor<'_>,
) -> Result<CItem, Stop>
    ensures { Reads (spec.variable_behind (keeps constants) is_shared is_static c.old) result c.new }
{
    let declared = one_variable(alloc, constants, c)?;
    variable_of(alloc, constants, is_shared, is_static, declared, c)
}

#[tactic(auto, unfolding(crate::specs::ReadItems::variable))]
fn variable(
    alloc: Global,
    constants: Constants,
    is_shared: bool,
    c: &mut Cursor<'_>,
) -> Result<CItem, Stop>
    ensures { Reads (spec.variable (keeps constants) is_shared c.old) result c.new }
{
    let is_static = static_word(c)?;
    variable_behind(alloc, constants, is_shared, is_static, c)
}

/// A function or a variable: what is no function is a variable.
#[tactic(auto, unfolding(crate::specs::ReadItems::definition))]
fn definition(
    alloc: Global,
    constants: Constants,
    depth: usize,
    is_shared: bool,
    c: &mut Cursor<'_>,
) -> Result<CItem, Stop>
    ensures { Reads (spec.definition (keeps constants) depth is_shared c.old) result c.new }
{
    let mut again = c.again();
    match function(alloc, constants, depth, is_shared, c) {
        Ok(found) => Ok(found),
        Err(Stop::NotC { left }) => match variable(alloc, constants, is_shared, &mut again) {
            Ok(found) => {
                *c = again;
                Ok(found)
            }
            Err(second) => Err(later_of(left, second)),
        },
        Err(e) => Err(e),
    }
}

/// What stands behind `extern`: what is no prototype is a variable.
#[tactic(auto, unfolding(crate::specs::ReadItems::declaration))]
fn declaration(alloc: Global, constants: Constants, c: &mut Cursor<'_>) -> Result<CItem, Stop>
    ensures { Reads (spec.declaration (keeps constants) c.old) result c.new }
{
    let mut again = c.again();
    match prototype_line(alloc, c) {
        Ok(found) => Ok(found),
        Err(Stop::NotC { left }) => match extern_line(alloc, constants, &mut again) {
            Ok(found) => {
                *c = again;
                Ok(found)
            }
            Err(second) => Err(later_of(left, second)),
        },
        Err(e) => Err(e),
    }
}

/// What is no definition is a prototype.
#[tactic(auto, unfolding(crate::specs::ReadItems::unmarked))]
fn unmarked(
    alloc: Global,
    constants: Constants,
    depth: usize,
    c: &mut Cursor<'_>,
) -> Result<CItem, Stop>
    ensures { Reads (spec.unmarked (keeps constants) depth c.old) result c.new }
{
    let mut again = c.again();
    match definition(alloc, constants, depth, false, c) {
        Ok(found) => Ok(found),
        Err(Stop::NotC { left }) => match prototype_line(alloc, &mut again) {
            Ok(found) => {
                *c = again;
                Ok(found)
            }
            Err(second) => Err(later_of(left, second)),
        },
        Err(e) => Err(e),
    }
}

#[tactic(auto, unfolding(crate::specs::ReadItems::marked))]
fn marked(
    alloc: Global,
    constants: Constants,
    depth: usize,
    c: &mut Cursor<'_>,
) -> Result<CItem, Stop>
    ensures { Reads (spec.marked (keeps constants) depth c.old) result c.new }
{
    if c.sees_shared() {
        c.skip();
        return definition(alloc, constants, depth, true, c);
    }
    unmarked(alloc, constants, depth, c)
}

#[tactic(auto, unfolding(crate::specs::ReadItems::one_item))]
fn one_item(
    alloc: Global,
    constants: Constants,
    depth: usize,
    c: &mut Cursor<'_>,
) -> Result<CItem, Stop>
    ensures { Reads (spec.one_item (keeps constants) depth c.old) result c.new }
{
    if c.sees(Mark::Extern) {
        c.skip();
        return declaration(alloc, constants, c);
    }
    marked(alloc, constants, depth, c)
}

fn items(
    alloc: Global,
    constants: Constants,
    depth: usize,
    c: &mut Cursor<'_>,
) -> Result<Items<CItem>, Stop>
    ensures { Reads (spec.items (keeps constants) depth c.old) result c.new }
{
    let mut found = Items::new(alloc);
    for _turn in 0..c.len() {
        if c.is_end() {
            return Ok(found);
        }
        found.push(one_item(alloc, constants, depth, c)?)?;
    }
    Ok(found)
}

/// The items that all tokens spell.
#[tactic(auto, unfolding(crate::specs::ReadItems::whole))]
pub fn whole(
    alloc: Global,
    constants: Constants,
    depth: usize,
    c: &mut Cursor<'_>,
) -> Result<Items<CItem>, Stop>
    ensures { Reads (spec.whole (keeps constants) depth c.old) result c.new }
{
    let found = items(alloc, constants, depth, c)?;
    c.end()?;
    Ok(found)
}
