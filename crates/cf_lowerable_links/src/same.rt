//! Types of functions and variables, compared.

ghost use Rattle.std.specs.Prelude.{◌≡◌, ◌∷◌, [], Some, option_map};
ghost use Rattle.cc_whole.specs.Numbers as numbers;
ghost use Rattle.cc_whole.specs.Types as types;
ghost use Rattle.cc_whole.specs.Valid as valid;
ghost use Rattle.cf_lowerable_links.specs.Meant.{meant_of};

use crate::entity::Entity;
use crate::letters::is;
use cc_whole::{CConstant, CParameter, CPrototype, CType, CVariableType};

fn same_result(a: Option<CType>, b: Option<CType>) -> bool
    ensures { result ≡ types.same_result a b }
{
    match (a, b) {
        (None, None) => true,
        (Some(s), Some(t)) => s.is(t),
        (None, Some(_)) => false,
        (Some(_), None) => false,
    }
}

/// Whether there are no parameters.
fn takes_none(parameters: &[CParameter]) -> bool
    ensures { result ≡ types.same_types [] (types.parameter_types parameters.now) }
{
    match parameters.split_first() {
        None => true,
        Some(_) => false,
    }
}

/// Whether there is one parameter, of this type.
fn takes_one(ty: CType, parameters: &[CParameter]) -> bool
    ensures { result ≡ types.same_types (ty ∷ []) (types.parameter_types parameters.now) }
{
    match parameters.split_first() {
        None => false,
        Some((parameter, rest)) => ty.is(parameter.ty) && takes_none(rest),
    }
}

/// Whether parameters have the same types.
fn same_parameters(a: &[CParameter], b: &[CParameter]) -> bool
    ensures { result ≡ types.same_types (types.parameter_types a.now) (types.parameter_types b.now) }
{
    let mut ours = a;
    let mut theirs = b;
    while let Some((parameter, rest)) = ours.split_first() {
        match theirs.split_first() {
            None => return false,
            Some((other, others)) => {
                if !parameter.ty.is(other.ty) {
                    return false;
                }
                ours = rest;
                theirs = others;
            }
        }
    }
    takes_none(theirs)
}

fn same_function(a: &CPrototype, b: &CPrototype) -> bool
    ensures { result ≡ types.same_signature (types.signature_of a.now) (types.signature_of b.now) }
{
    same_result(a.result, b.result)
        && same_parameters(a.parameters.as_slice(), b.parameters.as_slice())
}

/// How many elements an array of this size has.
fn size_of(constant: CConstant) -> u32
    ensures { result ≡ numbers.size_of constant }
{
    match constant {
        CConstant::Signed(number) => u32::try_from(number).unwrap_or(0),
        CConstant::Unsigned(number) => number,
    }
}

fn same_variable(a: CVariableType, b: CVariableType) -> bool
    ensures { result ≡ types.same_variable a b }
{
    match (a, b) {
        (CVariableType::Scalar(s), CVariableType::Scalar(t)) => s.is(t),
        (CVariableType::Ints(c), CVariableType::Ints(d)) => size_of(c) == size_of(d),
        (CVariableType::Chars(c), CVariableType::Chars(d)) => size_of(c) == size_of(d),
        (CVariableType::Pairs(c), CVariableType::Pairs(d)) => size_of(c) == size_of(d),
        _ => false,
    }
}

/// Whether two entities have one type.
fn same_entity(a: Entity<'_>, b: Entity<'_>) -> bool
    ensures { result ≡ valid.agrees (Some (meant_of a.entry)) (meant_of b.entry) }
{
    match (a, b) {
        (Entity::Function(p), Entity::Function(q)) => same_function(p, q),
        (Entity::Object(s), Entity::Object(t)) => same_variable(s, t),
        _ => false,
    }
}

/// Whether a name that means this so far may be declared as that.
pub(crate) fn agrees(found: Option<Entity<'_>>, entity: Entity<'_>) -> bool
    ensures { result ≡ valid.agrees (option_map meant_of found.entry) (meant_of entity.entry) }
{
    match found {
        None => true,
        Some(found) => same_entity(found, entity),
    }
}

/// Whether it is a function without parameters that gives this.
fn is_of_none(entity: Entity<'_>, gives: Option<CType>) -> bool
    ensures { result ≡ valid.has_type (valid.takes gives []) (meant_of entity.entry) }
{
    match entity {
        Entity::Function(p) => same_result(gives, p.result) && takes_none(p.parameters.as_slice()),
        Entity::Object(_) => false,
    }
}

/// Whether it is a function with one parameter of this type that gives this.
fn is_of_one(entity: Entity<'_>, gives: Option<CType>, ty: CType) -> bool
    ensures { result ≡ valid.has_type (valid.takes gives (ty ∷ [])) (meant_of entity.entry) }
{
    match entity {
        Entity::Function(p) => {
            same_result(gives, p.result) && takes_one(ty, p.parameters.as_slice())
        }
        Entity::Object(_) => false,
    }
}

/// Whether a name that has a type of its own has it.
pub(crate) fn has_own_type(name: &[u8], entity: Entity<'_>) -> bool
    ensures { result ≡ valid.has_type (valid.own_type name.now) (meant_of entity.entry) }
{
    if is(name, b"main") || is(name, b"__main") {
        is_of_none(entity, Some(CType::Int))
    } else if is(name, b"__hci") || is(name, b"__sti") {
        is_of_none(entity, None)
    } else if is(name, b"putchar") {
        is_of_one(entity, Some(CType::Int), CType::Int)
    } else if is(name, b"getchar") {
        is_of_none(entity, Some(CType::Int))
    } else if is(name, b"exit") {
        is_of_one(entity, None, CType::Int)
    } else if is(name, b"malloc") {
        is_of_one(entity, Some(CType::Pointer), CType::UInt)
    } else if is(name, b"free") {
        is_of_one(entity, None, CType::Pointer)
    } else if is(name, b"atexit") {
        is_of_one(entity, Some(CType::Int), CType::FunctionPointer)
    } else {
        true
    }
}
