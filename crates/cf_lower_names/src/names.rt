//! The names of the C's locals and of literals.

ghost use Rattle.std.specs.Prelude.{◌≡◌, ◌++◌, IfOk, decimal};
ghost use Rattle.cf_lower.specs.Written as written;
ghost use Rattle.cf_lower_names.specs.Cells.{sort_for};

use crate::cell::Cell;
use cc_whole::CType;
use cf_base::{Memory, Name};
use itoa::Buffer;
use std::alloc::Global;

/// These letters with a number behind them.
fn numbered(alloc: Global, letters: &[u8], number: u32) -> Result<Vec<u8>, Memory>
    ensures { IfOk result (λ text. text.items ≡ letters.now ++ decimal number) }
{
    let mut text = Vec::from_slice(alloc, letters)?;
    text.extend_from_slice(Buffer::new().format(number).as_bytes())?;
    Ok(text)
}

/// The name of a parameter or local.
pub fn local_name(alloc: Global, number: u32) -> Result<Name, Memory>
    ensures { IfOk result (λ name. name ≡ written.local_name number) }
{
    Ok(Name::from_vec(numbered(alloc, b"__l", number)?))
}

/// The name of a register, as an integer, a pointer or a pointer to a function.
pub fn register_name(alloc: Global, cell: Cell, register: u32) -> Result<Name, Memory>
    ensures { IfOk result (λ name. name ≡ written.register_name (sort_for cell) register) }
{
    match cell {
        Cell::Number(_) => Ok(Name::from_vec(numbered(alloc, b"__i", register)?)),
        Cell::Address => Ok(Name::from_vec(numbered(alloc, b"__p", register)?)),
        Cell::Code => Ok(Name::from_vec(numbered(alloc, b"__f", register)?)),
    }
}

/// The name of the flag of a loop or switch that so many stand around.
pub fn flag_name(alloc: Global, depth: u32) -> Result<Name, Memory>
    ensures { IfOk result (λ name. name ≡ written.flag_name depth) }
{
    Ok(Name::from_vec(numbered(alloc, b"__w", depth)?))
}

/// Types in an order of their own.
pub fn type_number(ty: CType) -> u32
    ensures { result ≡ written.type_number ty }
{
    match ty {
        CType::Char => 0,
        CType::UChar => 1,
        CType::Short => 2,
        CType::UShort => 3,
        CType::Int => 4,
        CType::UInt => 5,
        CType::Pointer => 6,
        CType::FunctionPointer => 7,
    }
}

/// The name of what a call gives, before a register holds it.
pub fn result_name(alloc: Global, ty: CType) -> Result<Name, Memory>
    ensures { IfOk result (λ name. name ≡ written.result_name ty) }
{
    Ok(Name::from_vec(numbered(alloc, b"__v", type_number(ty))?))
}

/// The name of a string literal of a function.
pub fn literal_name(alloc: Global, function: &[u8], number: u32) -> Result<Name, Memory>
    ensures { IfOk result (λ name. name ≡ written.literal_name function.now number) }
{
    let mut text = numbered(alloc, b"__s", number)?;
    text.extend_from_slice(b"__")?;
    text.extend_from_slice(function)?;
    Ok(Name::from_vec(text))
}
