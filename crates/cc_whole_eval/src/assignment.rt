ghost use Rattle.std.specs.Prelude.{◌≡◌, Ok, OnOk, IfErr};
ghost use Rattle.cc_whole.specs.Plain.{expression_of, place_of};
ghost use Rattle.cc_whole_mean.specs.Values as values;
ghost use Rattle.cc_whole_memory.specs.Store.{answer, act_number, memory_of};
ghost use Rattle.cc_whole_eval.specs.Answer.{source_answer};

use crate::expression::value;
use crate::names::Names;
use crate::operators::fitted;
use crate::types::scalar_of;
use cc_whole::{CExpression, CPlace};
use cc_whole_mean::{Named, Shape, Target};
use cc_whole_memory::{Act, Pointer, Store, Value, bytes_of};

fn variable_target(named: Option<Named>) -> Result<Target, Act>
    ensures { answer result ≡ values.variable_target named }
{
    match named {
        Some(Named::Variable(block, Shape::Single(scalar))) => Ok(Target {
            pointer: Pointer::At { block, offset: 0 },
            scalar,
        }),
        Some(Named::Variable(_, Shape::Array)) => Err(Act::A7),
        Some(Named::Function(_)) => Err(Act::A7),
        None => Err(Act::A7),
    }
}

/// The place of a store.
pub fn target<N: Names>(place: &CPlace, names: &N, store: &Store) -> Result<Target, Act>
    ensures { answer result ≡ values.target_of (place_of place.now) (N.scope names.now) (memory_of store.now) }
{
    match place {
        CPlace::Name(name) => variable_target(names.named(name.as_slice())),
        CPlace::At(ty, e) => {
            let v = value(e.get(), names, store)?;
            match v {
                Value::Address(pointer) => Ok(Target {
                    pointer,
                    scalar: scalar_of(*ty),
                }),
                Value::Number(_, _) => Err(Act::A7),
                Value::Function(_) => Err(Act::A7),
            }
        }
    }
}

/// A place gets a value.
pub fn store_at(at: Target, v: Value, store: &mut Store) -> Result<(), Act>
    ensures ok { OnOk result (values.stored at v (memory_of store.old) ≡ Ok (memory_of store.new)) }
    ensures err { IfErr result (λ act. values.stored at v (memory_of store.old) ≡ Err (act_number act)) }
{
    let v = fitted(at.scalar, v)?;
    store.write(at.pointer, v)?;
    Ok(())
}

fn variable_source(named: Option<Named>) -> Option<Result<Pointer, Act>>
    ensures { source_answer result ≡ values.variable_source named }
{
    match named {
        Some(Named::Variable(block, Shape::Single(_))) => {
            Some(Ok(Pointer::At { block, offset: 0 }))
        }
        Some(Named::Variable(_, Shape::Array)) => None,
        Some(Named::Function(_)) => None,
        None => None,
    }
}

/// The pointer that an expression is.
fn pointer<N: Names>(e: &CExpression, names: &N, store: &Store) -> Result<Pointer, Act>
    ensures { answer result ≡ values.pointer_of (expression_of e.now) (N.scope names.now) (memory_of store.now) }
{
    let v = value(e, names, store)?;
    match v {
        Value::Address(p) => Ok(p),
        Value::Number(_, _) => Err(Act::A7),
        Value::Function(_) => Err(Act::A7),
    }
}

/// Where a right side loads from, if it is one load.
fn source<N: Names>(e: &CExpression, names: &N, store: &Store) -> Option<Result<Pointer, Act>>
    ensures { source_answer result ≡ values.source_of (expression_of e.now) (N.scope names.now) (memory_of store.now) }
{
    match e {
        CExpression::Load(CPlace::Name(name)) => variable_source(names.named(name.as_slice())),
        CExpression::Load(CPlace::At(_, e)) => Some(pointer(e.get(), names, store)),
        CExpression::Constant(_) => None,
        CExpression::Unary(_, _) => None,
        CExpression::Cast(_, _) => None,
        CExpression::AddressOf(_) => None,
        CExpression::Binary(_, _, _) => None,
    }
}

/// What stands where a right side loads from is moved to a place.
fn carry_to(from: Result<Pointer, Act>, at: Target, store: &mut Store) -> Result<(), Act>
    ensures ok { OnOk result (values.carried_to (answer from) at (memory_of store.old) ≡ Ok (memory_of store.new)) }
    ensures err { IfErr result (λ act. values.carried_to (answer from) at (memory_of store.old) ≡ Err (act_number act)) }
{
    let from = from?;
    store.carry(from, at.pointer, bytes_of(at.scalar))?;
    Ok(())
}

/// A place gets the value of an expression.
fn give_to<N: Names>(e: &CExpression, at: Target, names: &N, store: &mut Store) -> Result<(), Act>
    ensures ok { OnOk result (values.given_to (expression_of e.now) at (N.scope names.now) (memory_of store.old) ≡ Ok (memory_of store.new)) }
    ensures err { IfErr result (λ act. values.given_to (expression_of e.now) at (N.scope names.now) (memory_of store.old) ≡ Err (act_number act)) }
{
    let v = value(e, names, store)?;
    store_at(at, v, store)?;
    Ok(())
}

/// A place that was found gets what an expression gives.
fn assign_to<N: Names>(e: &CExpression, at: Target, names: &N, store: &mut Store) -> Result<(), Act>
    ensures ok { OnOk result (values.assigned_to at (expression_of e.now) (N.scope names.now) (memory_of store.old) ≡ Ok (memory_of store.new)) }
    ensures err { IfErr result (λ act. values.assigned_to at (expression_of e.now) (N.scope names.now) (memory_of store.old) ≡ Err (act_number act)) }
{
    match source(e, names, store) {
        None => give_to(e, at, names, store),
        Some(from) => carry_to(from, at, store),
    }
}

/// `place = expression;`: the place first. One load moves what stands there, no value included.
pub fn assign<N: Names>(
    place: &CPlace,
    e: &CExpression,
    names: &N,
    store: &mut Store,
) -> Result<(), Act>
    ensures ok { OnOk result (values.assigned (place_of place.now) (expression_of e.now) (N.scope names.now) (memory_of store.old) ≡ Ok (memory_of store.new)) }
    ensures err { IfErr result (λ act. values.assigned (place_of place.now) (expression_of e.now) (N.scope names.now) (memory_of store.old) ≡ Err (act_number act)) }
{
    let at = target(place, names, store)?;
    assign_to(e, at, names, store)?;
    Ok(())
}
