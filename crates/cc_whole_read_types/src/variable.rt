//! Locals and variables, with their names.

ghost use Rattle.std.specs.Prelude.{◌≡◌};
ghost use Rattle.cc_whole_reading.specs.Constants.{keeps};
ghost use Rattle.cc_whole_reading.specs.Parse.{Reads};
ghost use Rattle.cc_whole_read_types.specs.ReadTypes as spec;

use crate::types::type_name;
use cc_whole::{CConstant, CLocal, CLocalType, CType, CVariableType};
use cc_whole_reading::{Constants, Cursor, Stop};
use cc_whole_tokens::Mark;
use cf_base::Name;
use std::alloc::Global;

/// A variable of a unit: its type and its name.
#[derive(Debug, Drop)]
pub struct Declared {
    pub ty: CVariableType,
    pub name: Name,
}

/// The number of elements, behind `[`.
#[tactic(auto, unfolding(crate::specs::ReadTypes::size))]
fn size(constants: Constants, c: &mut Cursor<'_>) -> Result<CConstant, Stop>
    ensures { Reads (spec.size (keeps constants) c.old) result c.new }
{
    let size = c.constant(constants)?;
    c.expect(Mark::RightBracket)?;
    Ok(size)
}

fn is_int(ty: CType) -> bool
    ensures { result ≡ spec.is_int ty }
{
    matches!(ty, CType::Int)
}

fn is_char(ty: CType) -> bool
    ensures { result ≡ spec.is_char ty }
{
    matches!(ty, CType::Char)
}

fn array_of(ty: CType, size: CConstant) -> CVariableType
    ensures { result ≡ spec.array_of ty size }
{
    match ty {
        CType::Char => CVariableType::Chars(size),
        _ => CVariableType::Ints(size),
    }
}

#[tactic(auto, unfolding(crate::specs::ReadTypes::ints))]
fn ints(constants: Constants, name: Name, c: &mut Cursor<'_>) -> Result<CLocal, Stop>
    ensures { Reads (spec.ints (keeps constants) name c.old) result c.new }
{
    let ty = CLocalType::Ints(size(constants, c)?);
    Ok(CLocal { ty, name })
}

/// A local, behind its name.
#[tactic(auto, unfolding(crate::specs::ReadTypes::local_of))]
fn local_of(constants: Constants, ty: CType, name: Name, c: &mut Cursor<'_>) -> Result<CLocal, Stop>
    ensures { Reads (spec.local_of (keeps constants) ty name c.old) result c.new }
{
    if is_int(ty) && c.sees(Mark::LeftBracket) {
        c.skip();
        return ints(constants, name, c);
    }
    let ty = CLocalType::Scalar(ty);
    Ok(CLocal { ty, name })
}

/// A local, behind its type.
#[tactic(auto, unfolding(crate::specs::ReadTypes::local_named))]
fn local_named(
    alloc: Global,
    constants: Constants,
    ty: CType,
    c: &mut Cursor<'_>,
) -> Result<CLocal, Stop>
    ensures { Reads (spec.local_named (keeps constants) ty c.old) result c.new }
{
    let name = c.name(alloc)?;
    local_of(constants, ty, name, c)
}

/// Takes a local of a body, without the `;` behind it.
#[tactic(auto, unfolding(crate::specs::ReadTypes::one_local))]
pub fn one_local(alloc: Global, constants: Constants, c: &mut Cursor<'_>) -> Result<CLocal, Stop>
    ensures { Reads (spec.one_local (keeps constants) c.old) result c.new }
{
    let ty = type_name(c)?;
    local_named(alloc, constants, ty, c)
}

#[tactic(auto, unfolding(crate::specs::ReadTypes::array))]
fn array(constants: Constants, ty: CType, name: Name, c: &mut Cursor<'_>) -> Result<Declared, Stop>
    ensures { Reads (spec.array (keeps constants) ty name c.old) result c.new }
{
    let ty = array_of(ty, size(constants, c)?);
    Ok(Declared { ty, name })
}

/// A variable, behind its name.
#[tactic(auto, unfolding(crate::specs::ReadTypes::variable_of))]
fn variable_of(
    constants: Constants,
    ty: CType,
    name: Name,
    c: &mut Cursor<'_>,
) -> Result<Declared, Stop>
    ensures { Reads (spec.variable_of (keeps constants) ty name c.old) result c.new }
{
    if (is_int(ty) || is_char(ty)) && c.sees(Mark::LeftBracket) {
        c.skip();
        return array(constants, ty, name, c);
    }
    let ty = CVariableType::Scalar(ty);
    Ok(Declared { ty, name })
}

/// A variable, behind its type.
#[tactic(auto, unfolding(crate::specs::ReadTypes::variable_named))]
fn variable_named(
    alloc: Global,
    constants: Constants,
    ty: CType,
    c: &mut Cursor<'_>,
) -> Result<Declared, Stop>
    ensures { Reads (spec.variable_named (keeps constants) ty c.old) result c.new }
{
    let name = c.name(alloc)?;
    variable_of(constants, ty, name, c)
}

#[tactic(auto, unfolding(crate::specs::ReadTypes::variable_typed))]
fn variable_typed(alloc: Global, constants: Constants, c: &mut Cursor<'_>) -> Result<Declared, Stop>
    ensures { Reads (spec.variable_typed (keeps constants) c.old) result c.new }
{
    let ty = type_name(c)?;
    variable_named(alloc, constants, ty, c)
}

/// An array of pairs, behind `struct`.
#[tactic(auto, unfolding(crate::specs::ReadTypes::pairs))]
fn pairs(alloc: Global, constants: Constants, c: &mut Cursor<'_>) -> Result<Declared, Stop>
    ensures { Reads (spec.pairs (keeps constants) c.old) result c.new }
{
    c.expect(Mark::Pair)?;
    let name = c.name(alloc)?;
    c.expect(Mark::LeftBracket)?;
    let ty = CVariableType::Pairs(size(constants, c)?);
    Ok(Declared { ty, name })
}

/// Takes a variable of a unit: its type and its name, and the number of elements of an array.
#[tactic(auto, unfolding(crate::specs::ReadTypes::one_variable))]
pub fn one_variable(
    alloc: Global,
    constants: Constants,
    c: &mut Cursor<'_>,
) -> Result<Declared, Stop>
    ensures { Reads (spec.one_variable (keeps constants) c.old) result c.new }
{
    if c.sees(Mark::Struct) {
        c.skip();
        return pairs(alloc, constants, c);
    }
    variable_typed(alloc, constants, c)
}
