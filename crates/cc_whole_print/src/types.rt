//! Types, and the variables and locals that have them.

ghost use Rattle.std.specs.Prelude.{◌≡◌, ◌++◌, OnOk};
ghost use Rattle.cc_whole_print.specs.Types.{type_text, result_text, types_text, star_text, signature_text, array_text, array_of_text, scalar_text, two_text, variable_text, named_local_text, local_text};

use crate::lines::{put, put_constant, put_if, put_spaced};
use cc_whole::{CConstant, CLocal, CLocalType, CSignature, CType, CVariableType};
use cc_whole_tokens::Mark;
use cf_base::{Items, Memory};

/// Two words.
fn two(out: &mut Vec<u8>, first: Mark, second: Mark) -> Result<(), Memory>
    ensures { OnOk result (out.new.items ≡ out.old.items ++ two_text first second) }
{
    put(out, first)?;
    put(out, second)
}

pub fn type_name(out: &mut Vec<u8>, ty: CType) -> Result<(), Memory>
    ensures { OnOk result (out.new.items ≡ out.old.items ++ type_text ty) }
{
    match ty {
        CType::Char => put(out, Mark::Char),
        CType::UChar => two(out, Mark::Unsigned, Mark::Char),
        CType::Short => put(out, Mark::Short),
        CType::UShort => two(out, Mark::Unsigned, Mark::Short),
        CType::Int => put(out, Mark::Int),
        CType::UInt => put(out, Mark::Unsigned),
        CType::Pointer => two(out, Mark::Char, Mark::Star),
        CType::FunctionPointer => put(out, Mark::FunctionPointer),
    }
}

pub fn result_type(out: &mut Vec<u8>, ty: Option<CType>) -> Result<(), Memory>
    ensures { OnOk result (out.new.items ≡ out.old.items ++ result_text ty) }
{
    match ty {
        None => put(out, Mark::Void),
        Some(ty) => type_name(out, ty),
    }
}

/// The types of parameters, or `void` where there are none.
fn types(out: &mut Vec<u8>, all: &Items<CType>) -> Result<(), Memory>
    ensures { OnOk result (out.new.items ≡ out.old.items ++ types_text all.now) }
{
    put_if(out, all.is_empty(), Mark::Void)?;
    for (at, one) in all.as_slice().iter().enumerate() {
        put_if(out, at > 0, Mark::Comma)?;
        type_name(out, *one)?;
    }
    Ok(())
}

/// `(*)`
fn star(out: &mut Vec<u8>) -> Result<(), Memory>
    ensures { OnOk result (out.new.items ≡ out.old.items ++ star_text) }
{
    put(out, Mark::LeftParen)?;
    put(out, Mark::Star)?;
    put(out, Mark::RightParen)
}

/// `(type (*)(types))`
pub fn signature(out: &mut Vec<u8>, signature: &CSignature) -> Result<(), Memory>
    ensures { OnOk result (out.new.items ≡ out.old.items ++ signature_text signature.now) }
{
    put(out, Mark::LeftParen)?;
    result_type(out, signature.result)?;
    star(out)?;
    put(out, Mark::LeftParen)?;
    types(out, &signature.parameters)?;
    two(out, Mark::RightParen, Mark::RightParen)
}

/// `NAME[constant]`
fn array(out: &mut Vec<u8>, name: &[u8], count: CConstant) -> Result<(), Memory>
    ensures { OnOk result (out.new.items ≡ out.old.items ++ array_text name.now count) }
{
    put_spaced(out, name)?;
    put(out, Mark::LeftBracket)?;
    put_constant(out, count)?;
    put(out, Mark::RightBracket)
}

/// A word before an array.
fn array_of(out: &mut Vec<u8>, word: Mark, name: &[u8], count: CConstant) -> Result<(), Memory>
    ensures { OnOk result (out.new.items ≡ out.old.items ++ array_of_text word name.now count) }
{
    put(out, word)?;
    array(out, name, count)
}

/// A type that is no array, and a name.
pub fn scalar(out: &mut Vec<u8>, ty: CType, name: &[u8]) -> Result<(), Memory>
    ensures { OnOk result (out.new.items ≡ out.old.items ++ scalar_text ty name.now) }
{
    type_name(out, ty)?;
    put_spaced(out, name)
}

/// A variable of a unit.
pub fn variable(out: &mut Vec<u8>, ty: CVariableType, name: &[u8]) -> Result<(), Memory>
    ensures { OnOk result (out.new.items ≡ out.old.items ++ variable_text ty name.now) }
{
    match ty {
        CVariableType::Scalar(ty) => scalar(out, ty, name),
        CVariableType::Ints(count) => array_of(out, Mark::Int, name, count),
        CVariableType::Chars(count) => array_of(out, Mark::Char, name, count),
        CVariableType::Pairs(count) => {
            put(out, Mark::Struct)?;
            array_of(out, Mark::Pair, name, count)
        }
    }
}

/// A local of a body, and its name.
fn named_local(out: &mut Vec<u8>, ty: CLocalType, name: &[u8]) -> Result<(), Memory>
    ensures { OnOk result (out.new.items ≡ out.old.items ++ named_local_text ty name.now) }
{
    match ty {
        CLocalType::Scalar(ty) => scalar(out, ty, name),
        CLocalType::Ints(count) => array_of(out, Mark::Int, name, count),
    }
}

/// A local of a body.
pub fn local(out: &mut Vec<u8>, local: &CLocal) -> Result<(), Memory>
    ensures { OnOk result (out.new.items ≡ out.old.items ++ local_text local.now) }
{
    named_local(out, local.ty, local.name.as_slice())?;
    put(out, Mark::Semicolon)
}
