ghost use Rattle.std.specs.Prelude.{◌≡◌, Some, bytes_eq};
ghost use Rattle.cc_whole.specs.Known as known;
ghost use Rattle.cc_whole.specs.Types as types;
ghost use Rattle.cc_whole.specs.Valid as spec;
ghost use Rattle.cc_whole_valid.specs.CheckingItems as items;
ghost use Rattle.cc_whole_valid.specs.Memory.{meant, meant_of};
ghost use Rattle.cc_whole_valid.specs.Walk.{Walks};

use crate::constants::size_of;
use crate::landmarks::pass;
use crate::scope::{Entity, Scope};
use crate::signature::{Signature, same_signature};
use crate::stop::Stop;
use cc_whole::{CType, CVariableType};
use cf_name_list::Names;

/// Whether two names are the same.
fn is(name: &[u8], other: &[u8]) -> bool
    ensures { result ≡ bytes_eq name.now other.now }
{
    name == other
}

/// Whether it is one of the six library functions.
pub fn is_library(name: &[u8]) -> bool
    ensures { result ≡ known.is_library name.now }
{
    is(b"putchar", name)
        || (is(b"getchar", name)
            || (is(b"exit", name)
                || (is(b"malloc", name) || (is(b"free", name) || is(b"atexit", name)))))
}

/// Whether two variables have the same type.
fn same_variable(a: CVariableType, b: CVariableType) -> bool
    ensures { result ≡ types.same_variable a b }
{
    match (a, b) {
        (CVariableType::Scalar(s), CVariableType::Scalar(t)) => s.is(t),
        (CVariableType::Ints(c), CVariableType::Ints(d)) => size_of(c) == size_of(d),
        (CVariableType::Chars(c), CVariableType::Chars(d)) => size_of(c) == size_of(d),
        (CVariableType::Pairs(c), CVariableType::Pairs(d)) => size_of(c) == size_of(d),
        _ => false,
    }
}

/// Whether two entities have the same type.
fn same_entity(a: Entity<'_>, b: Entity<'_>) -> bool
    ensures { result ≡ spec.agrees (Some (meant_of a.entry)) (meant_of b.entry) }
{
    match (a, b) {
        (Entity::Function(p), Entity::Function(q)) => {
            same_signature(Signature::Declared(p), Signature::Declared(q))
        }
        (Entity::Object(s), Entity::Object(t)) => same_variable(s, t),
        _ => false,
    }
}

/// Whether a name that means this so far may be declared as that.
fn agrees(found: Option<Entity<'_>>, entity: Entity<'_>) -> bool
    ensures { result ≡ spec.agrees (meant found.entry) (meant_of entity.entry) }
{
    match found {
        None => true,
        Some(found) => same_entity(found, entity),
    }
}

/// Whether an entity is a function of this type.
fn is_function_of(entity: Entity<'_>, gives: Option<CType>, parameters: &[CType]) -> bool
    ensures { result ≡ spec.has_type (spec.takes gives parameters.now) (meant_of entity.entry) }
{
    match entity {
        Entity::Function(p) => {
            same_signature(Signature::Of(gives, parameters), Signature::Declared(p))
        }
        Entity::Object(_) => false,
    }
}

/// Whether a name that has a type of its own has it.
fn has_own_type(name: &[u8], entity: Entity<'_>) -> bool
    ensures { result ≡ spec.has_type (spec.own_type name.now) (meant_of entity.entry) }
{
    if is(name, b"main") || is(name, b"__main") {
        is_function_of(entity, Some(CType::Int), &[])
    } else if is(name, b"__hci") || is(name, b"__sti") {
        is_function_of(entity, None, &[])
    } else if is(name, b"putchar") {
        is_function_of(entity, Some(CType::Int), &[CType::Int])
    } else if is(name, b"getchar") {
        is_function_of(entity, Some(CType::Int), &[])
    } else if is(name, b"exit") {
        is_function_of(entity, None, &[CType::Int])
    } else if is(name, b"malloc") {
        is_function_of(entity, Some(CType::Pointer), &[CType::UInt])
    } else if is(name, b"free") {
        is_function_of(entity, None, &[CType::Pointer])
    } else if is(name, b"atexit") {
        is_function_of(entity, Some(CType::Int), &[CType::FunctionPointer])
    } else {
        true
    }
}

/// Goes past a name that is declared as this behind these names and definitions, or defined.
#[tactic(auto, unfolding(crate::specs::CheckingItems::declared_from))]
pub fn declared_from(
    names: &Scope<'_>,
    defined: &Names<'_>,
    at: &mut usize,
    is_definition: bool,
    name: &[u8],
    entity: Entity<'_>,
) -> Result<(), Stop>
    ensures { Walks (items.declared_from names.now defined.now is_definition name.now (meant_of entity.entry) at.old) result at.new }
{
    if !(agrees(names.find(name), entity) && !(is_definition && defined.has(name))) {
        return Err(Stop::Broken {
            rule: 2,
            place: *at,
        });
    }
    if !(has_own_type(name, entity) && !(is_definition && is_library(name))) {
        return Err(Stop::Broken {
            rule: 10,
            place: *at,
        });
    }
    pass(at, 1)
}
