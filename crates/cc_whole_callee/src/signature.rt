ghost use Rattle.std.specs.Prelude.{◌≡◌, [], ◌∷◌};
ghost use Rattle.cc_whole_mean.specs.Callee as callee;
ghost use Rattle.cc_whole_callee.specs.View.{library_of, callee_of, types_of};

use crate::find::Callee;
use crate::library::Library;
use cc_whole::{CParameter, CSignature, CType};

/// A number for each type.
fn type_number(ty: CType) -> u8
    ensures { result ≡ callee.type_number ty }
{
    match ty {
        CType::Char => 0,
        CType::UChar => 1,
        CType::Short => 2,
        CType::UShort => 3,
        CType::Int => 4,
        CType::UInt => 5,
        CType::Pointer => 6,
        CType::FunctionPointer => 7,
    }
}

fn same_type(a: CType, b: CType) -> bool
    ensures { result ≡ callee.same_type a b }
{
    type_number(a) == type_number(b)
}

fn same_result(a: Option<CType>, b: Option<CType>) -> bool
    ensures { result ≡ callee.same_result a b }
{
    match a {
        None => b.is_none(),
        Some(a) => match b {
            None => false,
            Some(b) => same_type(a, b),
        },
    }
}

/// Whether there are no types.
fn none(types: &[CType]) -> bool
    ensures { result ≡ callee.same_types types.now [] }
{
    match types.split_first() {
        None => true,
        Some(_) => false,
    }
}

/// Whether there are no parameters.
fn none_taken(parameters: &[CParameter]) -> bool
    ensures { result ≡ callee.same_types [] (types_of parameters.now) }
{
    match parameters.split_first() {
        None => true,
        Some(_) => false,
    }
}

/// Whether parameters have these types.
fn takes(types: &[CType], parameters: &[CParameter]) -> bool
    ensures { result ≡ callee.same_types types.now (types_of parameters.now) }
{
    let mut types = types;
    let mut parameters = parameters;
    while let Some((ty, rest)) = types.split_first() {
        match parameters.split_first() {
            None => return false,
            Some((parameter, others)) => {
                if !same_type(*ty, parameter.ty) {
                    return false;
                }
                types = rest;
                parameters = others;
            }
        }
    }
    none_taken(parameters)
}

fn takes_one(types: &[CType], wanted: CType) -> bool
    ensures { result ≡ callee.same_types types.now (wanted ∷ []) }
{
    match types.split_first() {
        None => false,
        Some((ty, rest)) => same_type(*ty, wanted) && none(rest),
    }
}

fn library_result(library: Library) -> Option<CType>
    ensures { result ≡ callee.library_result (library_of library) }
{
    match library {
        Library::Putchar | Library::Getchar | Library::Atexit => Some(CType::Int),
        Library::Malloc => Some(CType::Pointer),
        Library::Exit | Library::Free => None,
    }
}

fn library_takes(library: Library, types: &[CType]) -> bool
    ensures { result ≡ callee.same_types types.now (callee.library_parameters (library_of library)) }
{
    match library {
        Library::Putchar | Library::Exit => takes_one(types, CType::Int),
        Library::Getchar => none(types),
        Library::Malloc => takes_one(types, CType::UInt),
        Library::Free => takes_one(types, CType::Pointer),
        Library::Atexit => takes_one(types, CType::FunctionPointer),
    }
}

/// Whether what is called has this type.
pub fn has_type(signature: &CSignature, called: Callee<'_>) -> bool
    ensures { result ≡ callee.has_type signature.now.result signature.now.parameters (callee_of called.entry) }
{
    match called {
        Callee::Own(f) => {
            same_result(signature.result, f.prototype.result)
                && takes(
                    signature.parameters.as_slice(),
                    f.prototype.parameters.as_slice(),
                )
        }
        Callee::BuiltIn(library) => {
            same_result(signature.result, library_result(library))
                && library_takes(library, signature.parameters.as_slice())
        }
    }
}
