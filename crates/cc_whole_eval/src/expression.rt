ghost use Rattle.std.specs.Prelude.{◌≡◌, Ok, IfOk, IfErr, map};
ghost use Rattle.cc_whole.specs.Plain.{expression_of, place_of};
ghost use Rattle.cc_whole_mean.specs.Values as values;
ghost use Rattle.cc_whole_memory.specs.Store.{answer, memory_of};
ghost use Rattle.cc_whole_eval.specs.Answer.{StopsAt};

use crate::arithmetic::prefixed;
use crate::names::Names;
use crate::operators::{applied, fitted};
use crate::types::{Stop, constant_value, scalar_of};
use cc_whole::{CExpression, CPlace};
use cc_whole_mean::{Named, Shape};
use cc_whole_memory::{Act, Pointer, Store, Value};
use std::alloc::Global;

/// A name as a value.
fn named_value(named: Option<Named>, store: &Store) -> Result<Value, Act>
    ensures { answer result ≡ values.named_value named (memory_of store.now) }
{
    match named {
        Some(Named::Variable(block, Shape::Single(scalar))) => store.read(
            Pointer::At { block, offset: 0 },
            scalar,
        ),
        Some(Named::Variable(block, Shape::Array)) => {
            Ok(Value::Address(Pointer::At { block, offset: 0 }))
        }
        Some(Named::Function(number)) => Ok(Value::Function(number)),
        None => Err(Act::A7),
    }
}

/// The address of a variable.
fn named_address(named: Option<Named>) -> Result<Value, Act>
    ensures { answer result ≡ values.named_address named }
{
    match named {
        Some(Named::Variable(block, _)) => { Ok(Value::Address(Pointer::At { block, offset: 0 })) }
        Some(Named::Function(_)) => Err(Act::A7),
        None => Err(Act::A7),
    }
}

/// The pointer that a value is.
pub fn address(v: Value) -> Result<Pointer, Act>
    ensures { answer result ≡ values.addressed v Ok }
{
    match v {
        Value::Address(p) => Ok(p),
        Value::Number(_, _) => Err(Act::A7),
        Value::Function(_) => Err(Act::A7),
    }
}

/// The value of an expression, or the act that it is.
pub fn value<N: Names>(e: &CExpression, names: &N, store: &Store) -> Result<Value, Act>
    ensures { answer result ≡ values.value_of (expression_of e.now) (N.scope names.now) (memory_of store.now) }
{
    match e {
        CExpression::Constant(constant) => Ok(constant_value(*constant)),
        CExpression::Load(CPlace::Name(name)) => named_value(names.named(name.as_slice()), store),
        CExpression::Load(CPlace::At(ty, e)) => {
            let v = value(e.get(), names, store)?;
            match v {
                Value::Address(p) => store.read(p, scalar_of(*ty)),
                Value::Number(_, _) => Err(Act::A7),
                Value::Function(_) => Err(Act::A7),
            }
        }
        CExpression::Unary(op, e) => {
            let v = value(e.get(), names, store)?;
            match v {
                Value::Number(kind, number) => prefixed(*op, kind, number),
                Value::Address(_) => Err(Act::A7),
                Value::Function(_) => Err(Act::A7),
            }
        }
        CExpression::Cast(ty, e) => {
            let v = value(e.get(), names, store)?;
            fitted(scalar_of(*ty), v)
        }
        CExpression::AddressOf(name) => named_address(names.named(name.as_slice())),
        CExpression::Binary(op, a, b) => {
            let x = value(a.get(), names, store)?;
            let y = value(b.get(), names, store)?;
            applied(*op, x, y, store)
        }
    }
}

/// The values of arguments, in order.
pub fn values<N: Names>(
    alloc: Global,
    all: &[CExpression],
    names: &N,
    store: &Store,
) -> Result<Vec<Value>, Stop>
    ensures ok { IfOk result (λ vs. values.values_of (map expression_of all.now) (N.scope names.now) (memory_of store.now) ≡ Ok vs.items) }
    ensures err { IfErr result (λ stop. StopsAt stop (values.values_of (map expression_of all.now) (N.scope names.now) (memory_of store.now))) }
{
    let mut found = Vec::new(alloc);
    for e in all {
        match value(e, names, store) {
            Err(act) => return Err(Stop::Act(act)),
            Ok(v) => found.push(v)?,
        }
    }
    Ok(found)
}

/// The integer that an expression is.
pub fn integer<N: Names>(e: &CExpression, names: &N, store: &Store) -> Result<i64, Act>
    ensures { answer result ≡ values.integer_of (expression_of e.now) (N.scope names.now) (memory_of store.now) }
{
    let v = value(e, names, store)?;
    match v {
        Value::Number(_, number) => Ok(number),
        Value::Address(_) => Err(Act::A7),
        Value::Function(_) => Err(Act::A7),
    }
}
