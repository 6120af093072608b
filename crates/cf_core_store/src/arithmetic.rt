ghost use Rattle.std.specs.Prelude.{◌≡◌, [], ◌&&◌, ◌||◌, true};
ghost use Rattle.cf_types.specs.Operators.{is_shift as its_shift};
ghost use Rattle.cf_core.specs.Types.{integer, void};
ghost use Rattle.cf_core.specs.FromTypes.{Tables};
ghost use Rattle.cf_run_tree.specs.Tree.{shape_type};
ghost use Rattle.cf_core.specs.Core.{arithmetic};
ghost use Rattle.cf_core.specs.Pointers.{truth_value};
ghost use Rattle.cf_base.specs.Integers as integers;
ghost use Rattle.std.specs.Result.{result_ok};
ghost use Rattle.cf_base.specs.World.{World};
ghost use Rattle.cf_core.specs.Run.{State};
ghost use Rattle.cf_core.specs.Scalars as scalars;
ghost use Rattle.cf_core.specs.Store.{Number};
ghost use Rattle.cf_core_store.specs.Acts.{act_of as its_act};
ghost use Rattle.cf_core_objects.specs.Answer.{Told};
ghost use Rattle.cf_core_objects.specs.Store.{value_of, as_number};
ghost use Rattle.cf_core_store.specs.Values.{pointer_value};

use cf_base::{Arith, Kind};
use cf_core::UnaryOperator;
use cf_core_objects::{Stop, Value};
use cf_run_tree::{Form, Shape};
use cf_types::{convert_int, int_op};

/// Whether it is a value of the type.
fn fits(kind: Kind, number: i64) -> bool
    ensures { result ≡ integers.fits kind number }
{
    match kind {
        Kind::Char | Kind::SChar => -128 <= number && number < 128,
        Kind::UChar => 0 <= number && number < 256,
        Kind::Short => -32768 <= number && number < 32768,
        Kind::UShort => 0 <= number && number < 65536,
        Kind::Int | Kind::Long => -2147483648 <= number && number < 2147483648,
        Kind::UInt | Kind::ULong => 0 <= number && number < 4294967296,
    }
}

fn is_shift(op: Arith) -> bool
    ensures { result ≡ its_shift op }
{
    matches!(op, Arith::ShiftLeft | Arith::ShiftRight)
}

/// The act that the operator is where it gives no value.
fn act_of(op: Arith, right: i64) -> u8
    ensures { result ≡ its_act op right }
{
    match op {
        Arith::Divide | Arith::Remainder => { if right == 0 { 2 } else { 1 } }
        Arith::ShiftLeft | Arith::ShiftRight => 3,
        _ => 1,
    }
}

/// A number converted to an integer type.
pub fn convert(number: i64, to: Kind) -> i64
    ensures { result ≡ integers.convert to number }
{
    convert_int(number, to)
}

/// Whether the operator takes these numbers at this type.
fn takes(op: Arith, kind: Kind, a: i64, b: i64) -> bool
    ensures { result ≡ (integers.fits kind a && (its_shift op || integers.fits kind b)) }
{
    fits(kind, a) && (is_shift(op) || fits(kind, b))
}

/// The value of the operator, if it gives one.
fn value_of_op(op: Arith, kind: Kind, a: i64, b: i64) -> Option<i64>
    requires { (integers.fits kind a && (its_shift op || integers.fits kind b)) ≡ true }
    ensures { result ≡ result_ok (integers.int_op op kind a b) }
{
    int_op(op, kind, a, b)
}

/// The result of the operator, or the act that it is.
fn result_of(op: Arith, kind: Kind, a: i64, b: i64) -> Result<i64, u8>
    requires { (integers.fits kind a && (its_shift op || integers.fits kind b)) ≡ true }
    ensures { result ≡ integers.int_op op kind a b }
{
    match value_of_op(op, kind, a, b) {
        None => Err(act_of(op, b)),
        Some(value) => Ok(value),
    }
}

/// The operator at two numbers.
fn operated_numbers(op: Arith, kind: Kind, a: i64, b: i64) -> Result<i64, Stop>
    ensures { (s : State) (w : World) → Told Number result s w (scalars.operated op kind (Number a) (Number b) s w) }
{
    if !takes(op, kind, a, b) {
        return Err(Stop::Malformed);
    }
    match result_of(op, kind, a, b) {
        Err(act) => Err(Stop::Act(act)),
        Ok(value) => Ok(value),
    }
}

/// The operator at two values.
pub fn operated(op: Arith, kind: Kind, x: Value<'_>, y: Value<'_>) -> Result<i64, Stop>
    ensures { (s : State) (w : World) → Told Number result s w (scalars.operated op kind (value_of x.entry) (value_of y.entry) s w) }
{
    match x {
        Value::Number(a) => match y {
            Value::Number(b) => operated_numbers(op, kind, a, b),
            _ => Err(Stop::Malformed),
        },
        _ => Err(Stop::Malformed),
    }
}

/// `-` takes from 0, `~` turns every bit.
pub fn signed(op: UnaryOperator, kind: Kind, v: Value<'_>) -> Result<i64, Stop>
    ensures { (s : State) (w : World) → Told Number result s w (scalars.signed op kind (value_of v.entry) s w) }
{
    match op {
        UnaryOperator::Negate => operated(Arith::Subtract, kind, Value::Number(0), v),
        UnaryOperator::Complement => {
            let ones = convert(-1, kind);
            operated(Arith::Xor, kind, v, Value::Number(ones))
        }
    }
}

/// Whether a value counts as true.
pub fn truth(v: Value<'_>) -> Result<bool, Stop>
    ensures { (s : State) (w : World) → Told (λ b. b) result s w (scalars.truth_of (value_of v.entry) s w) }
{
    match v {
        Value::Nothing => Err(Stop::Malformed),
        Value::Missing => Err(Stop::Act(16)),
        Value::Built => Err(Stop::Malformed),
        Value::Number(number) => Ok(number != 0),
        Value::Null => Ok(false),
        Value::At(_) => Ok(true),
        Value::Code(_) => Ok(true),
    }
}

/// A value converted to an integer type.
pub fn converted(v: Value<'_>, to: Kind) -> Result<i64, Stop>
    ensures { (s : State) (w : World) → Told Number result s w (scalars.converted_value (integer to) (value_of v.entry) s w) }
{
    match v {
        Value::Nothing => Err(Stop::Malformed),
        Value::Missing => Err(Stop::Act(16)),
        Value::Built => Err(Stop::Malformed),
        Value::Number(number) => Ok(convert(number, to)),
        Value::Null => Err(Stop::Malformed),
        Value::At(_) => Err(Stop::Malformed),
        Value::Code(_) => Err(Stop::Malformed),
    }
}

/// A value as a pointer: 0 is null.
fn as_pointer<'a>(v: Value<'a>) -> Result<Value<'a>, Stop>
    ensures { (s : State) (w : World) → Told value_of result s w (pointer_value (value_of v.entry) s w) }
{
    match v {
        Value::Nothing => Err(Stop::Malformed),
        Value::Missing => Err(Stop::Act(16)),
        Value::Built => Err(Stop::Malformed),
        Value::Number(number) => {
            if number == 0 {
                Ok(Value::Null)
            } else {
                Err(Stop::Malformed)
            }
        }
        Value::Null => Ok(Value::Null),
        Value::At(place) => Ok(Value::At(place)),
        Value::Code(name) => Ok(Value::Code(name)),
    }
}

/// A value that is not used.
fn dropped<'a>(v: Value<'a>) -> Result<Value<'a>, Stop>
    ensures { (s : State) (w : World) → Told value_of result s w (scalars.converted_value void (value_of v.entry) s w) }
{
    match v {
        Value::Built => Err(Stop::Malformed),
        _ => Ok(Value::Nothing),
    }
}

/// A number as a value.
pub fn number<'a>(found: Result<i64, Stop>) -> Result<Value<'a>, Stop>
    ensures { result ≡ as_number found }
{
    match found {
        Err(stop) => Err(stop),
        Ok(number) => Ok(Value::Number(number)),
    }
}

/// A value converted to a type.
pub fn converted_to<'a>(shape: Shape, v: Value<'a>) -> Result<Value<'a>, Stop>
    ensures { (T : Tables) (s : State) (w : World) → Told value_of result s w (scalars.converted_value (shape_type T shape) (value_of v.entry) s w) }
{
    match shape.form {
        Form::Void => dropped(v),
        Form::Integer(kind) => number(converted(v, kind)),
        Form::Enumeration(_) => number(converted(v, Kind::Int)),
        Form::Pointer(_) => as_pointer(v),
        Form::Reference(_) => Err(Stop::Malformed),
    }
}

/// The new value of an integer that is changed in place by a right operand.
pub fn changed(op: Arith, at: Kind, to: Kind, x: i64, y: Value<'_>) -> Result<i64, Stop>
    ensures { (s : State) (w : World) → Told Number result s w (scalars.changed_value [] (arithmetic op at to) (Number x) (value_of y.entry) s w) }
{
    match operated(op, at, Value::Number(convert(x, at)), y) {
        Err(stop) => Err(stop),
        Ok(value) => Ok(convert(value, to)),
    }
}

/// 1 or 0.
pub fn truth_number<'a>(holds: bool) -> Value<'a>
    ensures { value_of result ≡ truth_value holds }
{
    Value::Number(if holds { 1 } else { 0 })
}
