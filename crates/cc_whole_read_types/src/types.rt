//! Types.

ghost use Rattle.std.specs.Prelude.{◌≡◌};
ghost use Rattle.cc_whole_reading.specs.Parse.{Reads};
ghost use Rattle.cc_whole_read_types.specs.ReadTypes as spec;

use cc_whole::CType;
use cc_whole_reading::{Cursor, Stop};
use cc_whole_tokens::Mark;

/// What stands behind `char`.
#[tactic(auto, unfolding(crate::specs::ReadTypes::char_type))]
fn char_type(c: &mut Cursor<'_>) -> Result<CType, Stop>
    ensures { Reads (spec.char_type c.old) result c.new }
{
    if c.sees(Mark::Star) {
        c.skip();
        return Ok(CType::Pointer);
    }
    Ok(CType::Char)
}

/// What stands behind `unsigned`.
#[tactic(auto, unfolding(crate::specs::ReadTypes::unsigned_type))]
fn unsigned_type(c: &mut Cursor<'_>) -> Result<CType, Stop>
    ensures { Reads (spec.unsigned_type c.old) result c.new }
{
    if c.sees(Mark::Char) {
        c.skip();
        return Ok(CType::UChar);
    }
    if c.sees(Mark::Short) {
        c.skip();
        return Ok(CType::UShort);
    }
    Ok(CType::UInt)
}

#[tactic(auto, unfolding(crate::specs::ReadTypes::function_pointer))]
fn function_pointer(c: &mut Cursor<'_>) -> Result<CType, Stop>
    ensures { Reads (spec.function_pointer c.old) result c.new }
{
    c.expect(Mark::FunctionPointer)?;
    Ok(CType::FunctionPointer)
}

/// A type that does not begin with `char`.
#[tactic(auto, unfolding(crate::specs::ReadTypes::other_type))]
fn other_type(c: &mut Cursor<'_>) -> Result<CType, Stop>
    ensures { Reads (spec.other_type c.old) result c.new }
{
    if c.sees(Mark::Unsigned) {
        c.skip();
        return unsigned_type(c);
    }
    if c.sees(Mark::Short) {
        c.skip();
        return Ok(CType::Short);
    }
    if c.sees(Mark::Int) {
        c.skip();
        return Ok(CType::Int);
    }
    function_pointer(c)
}

/// Takes a type.
#[tactic(auto, unfolding(crate::specs::ReadTypes::type_name))]
pub fn type_name(c: &mut Cursor<'_>) -> Result<CType, Stop>
    ensures { Reads (spec.type_name c.old) result c.new }
{
    if c.sees(Mark::Char) {
        c.skip();
        return char_type(c);
    }
    other_type(c)
}

#[tactic(auto, unfolding(crate::specs::ReadTypes::some_type))]
fn some_type(c: &mut Cursor<'_>) -> Result<Option<CType>, Stop>
    ensures { Reads (spec.some_type c.old) result c.new }
{
    Ok(Some(type_name(c)?))
}

/// Takes a type, or `void`.
#[tactic(auto, unfolding(crate::specs::ReadTypes::result_type))]
pub fn result_type(c: &mut Cursor<'_>) -> Result<Option<CType>, Stop>
    ensures { Reads (spec.result_type c.old) result c.new }
{
    if c.sees(Mark::Void) {
        c.skip();
        return Ok(None);
    }
    some_type(c)
}

/// The rest of a type and a `*`, behind `char`.
#[tactic(auto, unfolding(crate::specs::ReadTypes::pointed_char))]
fn pointed_char(c: &mut Cursor<'_>) -> Result<CType, Stop>
    ensures { Reads (spec.pointed_char c.old) result c.new }
{
    c.expect(Mark::Star)?;
    if c.sees(Mark::Star) {
        c.skip();
        return Ok(CType::Pointer);
    }
    Ok(CType::Char)
}

#[tactic(auto, unfolding(crate::specs::ReadTypes::pointed_other))]
fn pointed_other(c: &mut Cursor<'_>) -> Result<CType, Stop>
    ensures { Reads (spec.pointed_other c.old) result c.new }
{
    let ty = other_type(c)?;
    c.expect(Mark::Star)?;
    Ok(ty)
}

/// Takes a type and a `*` behind it.
#[tactic(auto, unfolding(crate::specs::ReadTypes::pointed_type))]
pub fn pointed_type(c: &mut Cursor<'_>) -> Result<CType, Stop>
    ensures { Reads (spec.pointed_type c.old) result c.new }
{
    if c.sees(Mark::Char) {
        c.skip();
        return pointed_char(c);
    }
    pointed_other(c)
}

/// Whether a word comes next with which a type begins.
pub fn sees_type(c: &Cursor<'_>) -> bool
    ensures { result ≡ spec.sees_type c.now }
{
    c.sees(Mark::Char)
        || c.sees(Mark::Unsigned)
        || c.sees(Mark::Short)
        || c.sees(Mark::Int)
        || c.sees(Mark::FunctionPointer)
}
