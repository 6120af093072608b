ghost use Rattle.std.specs.Prelude.{◌≡◌};
ghost use Rattle.cc_whole_mean.specs.Values as values;
ghost use Rattle.cc_whole_memory.specs.Store.{answer, memory_of};

use crate::arithmetic::{is_true, of_numbers, truth_value};
use cc_whole_memory::{Act, Pointer, Scalar, Store, Value, as_scalar, same_pointer};
use cf_base::{Arith, Kind};

/// Whether the value is the constant 0, which is null where a pointer is wanted.
fn is_nought(v: Value) -> bool
    ensures { result ≡ values.is_nought v }
{
    match v {
        Value::Number(_, number) => number == 0,
        Value::Address(_) => false,
        Value::Function(_) => false,
    }
}

/// The value, if there is one of that kind.
fn typed(v: Option<Value>) -> Result<Value, Act>
    ensures { answer result ≡ values.typed v }
{
    match v {
        None => Err(Act::A7),
        Some(v) => Ok(v),
    }
}

/// The value as one of the type that is wanted.
pub fn fitted(scalar: Scalar, v: Value) -> Result<Value, Act>
    ensures { answer result ≡ values.fitted scalar v }
{
    match scalar {
        Scalar::Integer(kind) => typed(as_scalar(v, Scalar::Integer(kind))),
        Scalar::Pointer => {
            if is_nought(v) {
                Ok(Value::Address(Pointer::Null))
            } else {
                typed(as_scalar(v, Scalar::Pointer))
            }
        }
        Scalar::Function => {
            if is_nought(v) {
                Ok(Value::Function(0))
            } else {
                typed(as_scalar(v, Scalar::Function))
            }
        }
    }
}

/// `==` and `!=` of two values that are the same or not.
fn by_equality(op: Arith, same: bool) -> Result<Value, Act>
    ensures { answer result ≡ values.by_equality op same }
{
    match op {
        Arith::Equal => Ok(truth_value(same)),
        Arith::NotEqual => Ok(truth_value(!same)),
        _ => Err(Act::A7),
    }
}

fn is_equality(op: Arith) -> bool
    ensures { result ≡ values.is_equality op }
{
    matches!(op, Arith::Equal | Arith::NotEqual)
}

/// The operator on two pointers.
fn of_addresses(op: Arith, p: Pointer, q: Pointer, store: &Store) -> Result<Value, Act>
    ensures { answer result ≡ values.of_addresses op p q (memory_of store.now) }
{
    if is_equality(op) {
        return by_equality(op, same_pointer(p, q));
    }
    let number = store.of_pointers(op, p, q)?;
    Ok(Value::Number(Kind::Int, number))
}

/// The operator on a pointer and an integer.
fn of_address(op: Arith, p: Pointer, number: i64, store: &Store) -> Result<Value, Act>
    ensures { answer result ≡ values.of_address op p number (memory_of store.now) }
{
    match op {
        Arith::Add => {
            let moved = store.moved(p, number)?;
            Ok(Value::Address(moved))
        }
        Arith::Subtract => {
            let moved = store.moved_back(p, number)?;
            Ok(Value::Address(moved))
        }
        _ => {
            if is_true(number) {
                return Err(Act::A7);
            }
            by_equality(op, same_pointer(p, Pointer::Null))
        }
    }
}

/// The operator on an integer and a pointer.
fn before_address(op: Arith, number: i64, p: Pointer, store: &Store) -> Result<Value, Act>
    ensures { answer result ≡ values.before_address op number p (memory_of store.now) }
{
    match op {
        Arith::Add => {
            let moved = store.moved(p, number)?;
            Ok(Value::Address(moved))
        }
        _ => {
            if is_true(number) {
                return Err(Act::A7);
            }
            by_equality(op, same_pointer(Pointer::Null, p))
        }
    }
}

/// The operator on a pointer to a function and the constant 0.
fn of_function(op: Arith, function: usize, number: i64) -> Result<Value, Act>
    ensures { answer result ≡ values.of_function op function number }
{
    if is_true(number) {
        return Err(Act::A7);
    }
    by_equality(op, function == 0)
}

fn after_number(op: Arith, j: Kind, a: i64, y: Value, store: &Store) -> Result<Value, Act>
    ensures { answer result ≡ values.applied op (Value.Number j a) y (memory_of store.now) }
{
    match y {
        Value::Number(k, b) => of_numbers(op, j, a, k, b),
        Value::Address(p) => before_address(op, a, p, store),
        Value::Function(function) => of_function(op, function, a),
    }
}

fn after_address(op: Arith, p: Pointer, y: Value, store: &Store) -> Result<Value, Act>
    ensures { answer result ≡ values.applied op (Value.Address p) y (memory_of store.now) }
{
    match y {
        Value::Number(_, number) => of_address(op, p, number, store),
        Value::Address(q) => of_addresses(op, p, q, store),
        Value::Function(_) => Err(Act::A7),
    }
}

fn after_function(op: Arith, function: usize, y: Value, store: &Store) -> Result<Value, Act>
    ensures { answer result ≡ values.applied op (Value.Function function) y (memory_of store.now) }
{
    let _ = store;
    match y {
        Value::Number(_, number) => of_function(op, function, number),
        Value::Address(_) => Err(Act::A7),
        Value::Function(other) => by_equality(op, function == other),
    }
}

/// The operator on two values.
pub fn applied(op: Arith, x: Value, y: Value, store: &Store) -> Result<Value, Act>
    ensures { answer result ≡ values.applied op x y (memory_of store.now) }
{
    match x {
        Value::Number(j, a) => after_number(op, j, a, y, store),
        Value::Address(p) => after_address(op, p, y, store),
        Value::Function(function) => after_function(op, function, y, store),
    }
}
