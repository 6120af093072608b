ghost use Rattle.std.specs.Prelude.{◌≡◌, IfOk, OnOk, Some};
ghost use Rattle.cf_elab.specs.Choice as choice;
ghost use Rattle.cf_elab_arith.specs.Choice.Asked as asked;
ghost use Rattle.cf_elab_arith.specs.Choice.Shut as shut;
ghost use Rattle.cf_elab_env.specs.Answered.{Agrees};
ghost use Rattle.cf_elab_env.specs.Holds.{Known, Grows};
ghost use Rattle.cf_elab.specs.Answer.{Made};

use crate::arith::{convert, to_kind};
use crate::choice::asked::{are_void, chosen, common_kind, is_one_pointer, steps_between};
use cf_base::{Boxed, Broken, Items, Kind, Memory, Rule};
use cf_convert::ConvStep;
use cf_core::Core;
use cf_elab_env::{Env, Stop, Value};
use cf_types::TyId;

/// What a condition chooses of two values, as a value of this type.
#[tactic(auto, using(crate::proofs::ChoiceLaws::Chosen::one_known))]
fn one_of(
    env: &Env,
    at: u32,
    condition: Value,
    x: Value,
    y: Value,
    ty: TyId,
) -> Result<Value, Memory>
    requires first { Known env.now.types (record x { type = ty }) }
    requires second { Known env.now.types (record y { type = ty }) }
    ensures made { IfOk result (λ v. v ≡ choice.one_of at condition x y ty) }
    ensures known { IfOk result (λ v. Known env.now.types v) }
{
    let number = chosen(condition.number(), x.number(), y.number());
    let node = Boxed::new(
        env.alloc(),
        Core::Conditional {
            at,
            condition: condition.into_node(),
            yes: x.into_node(),
            no: y.into_node(),
        },
    )?;
    Ok(Value::computed(at, node, ty).with_number(number))
}

/// Two arithmetic values, as values of this type.
#[tactic(auto, using(crate::proofs::ChoiceLaws::Steps::both_laws))]
fn both_arithmetic(
    env: &mut Env,
    at: u32,
    condition: Value,
    x: Value,
    y: Value,
    kind: Kind,
) -> Result<Value, Stop>
    requires first { Known env.old.types x }
    requires second { Known env.old.types y }
    ensures made { Agrees (shut.both_arithmetic at condition x y kind env.old) result env.new }
    ensures known { IfOk result (λ v. Known env.new.types v) }
    ensures grows { OnOk result (Grows env.old.types env.new.types) }
{
    let a = to_kind(env, kind, x)?;
    let b = to_kind(env, kind, y)?;
    let ty = env.of_kind(kind)?;
    let value = one_of(env, at, condition, a, b, ty)?;
    Ok(value)
}

/// The first value by these steps as one of the second's type.
#[tactic(auto, using(crate::proofs::ChoiceLaws::Steps::second_laws))]
fn as_second(
    env: &mut Env,
    at: u32,
    condition: Value,
    x: Value,
    y: Value,
    steps: Items<ConvStep>,
) -> Result<Value, Memory>
    requires first { Known env.old.types x }
    requires second { Known env.old.types y }
    requires steps { asked.steps_between env.old x y.type ≡ Some steps }
    ensures made { IfOk result (λ v. shut.as_second at condition x y steps env.old ≡ Made v env.new) }
    ensures known { IfOk result (λ v. Known env.new.types v) }
    ensures grows { OnOk result (Grows env.old.types env.new.types) }
{
    let ty = y.ty();
    let a = convert(env, at, ty, steps, x)?;
    let value = one_of(env, at, condition, a, y, ty)?;
    Ok(value)
}

/// The second value by these steps as one of the first's type.
#[tactic(auto, using(crate::proofs::ChoiceLaws::Steps::first_laws))]
fn as_first(
    env: &mut Env,
    at: u32,
    condition: Value,
    x: Value,
    y: Value,
    steps: Items<ConvStep>,
) -> Result<Value, Memory>
    requires first { Known env.old.types x }
    requires second { Known env.old.types y }
    requires steps { asked.steps_between env.old y x.type ≡ Some steps }
    ensures made { IfOk result (λ v. shut.as_first at condition x y steps env.old ≡ Made v env.new) }
    ensures known { IfOk result (λ v. Known env.new.types v) }
    ensures grows { OnOk result (Grows env.old.types env.new.types) }
{
    let ty = x.ty();
    let b = convert(env, at, ty, steps, y)?;
    let value = one_of(env, at, condition, x, b, ty)?;
    Ok(value)
}

/// One value as one of the other's type, else K18 (5.16).
#[tactic(auto, using(crate::proofs::ChoiceLaws::Steps::one_type_laws))]
fn one_type(env: &mut Env, at: u32, condition: Value, x: Value, y: Value) -> Result<Value, Stop>
    requires first { Known env.old.types x }
    requires second { Known env.old.types y }
    ensures made { Agrees (shut.one_type at condition x y env.old) result env.new }
    ensures known { IfOk result (λ v. Known env.new.types v) }
    ensures grows { OnOk result (Grows env.old.types env.new.types) }
{
    match steps_between(env, &x, &y)? {
        Some(steps) => {
            let value = as_second(env, at, condition, x, y, steps)?;
            Ok(value)
        }
        None => {
            let value = not_second(env, at, condition, x, y)?;
            Ok(value)
        }
    }
}

/// The same where the first value is not converted to the second's type.
#[tactic(auto, using(crate::proofs::ChoiceLaws::Steps::not_second_laws))]
fn not_second(env: &mut Env, at: u32, condition: Value, x: Value, y: Value) -> Result<Value, Stop>
    requires first { Known env.old.types x }
    requires second { Known env.old.types y }
    ensures made { Agrees (shut.not_second at condition x y env.old) result env.new }
    ensures known { IfOk result (λ v. Known env.new.types v) }
    ensures grows { OnOk result (Grows env.old.types env.new.types) }
{
    match steps_between(env, &y, &x)? {
        Some(steps) => {
            let value = as_first(env, at, condition, x, y, steps)?;
            Ok(value)
        }
        None => Err(Stop::Broken(Broken {
            rule: Rule::new(18),
            at,
        })),
    }
}

/// A pointer and another value as values of one type; no pointer is K18 (5.16).
#[tactic(auto, using(crate::proofs::ChoiceLaws::Steps::pointers_laws))]
fn pointers(env: &mut Env, at: u32, condition: Value, x: Value, y: Value) -> Result<Value, Stop>
    requires first { Known env.old.types x }
    requires second { Known env.old.types y }
    ensures made { Agrees (shut.pointers at condition x y env.old) result env.new }
    ensures known { IfOk result (λ v. Known env.new.types v) }
    ensures grows { OnOk result (Grows env.old.types env.new.types) }
{
    if is_one_pointer(env, &x, &y) {
        let value = one_type(env, at, condition, x, y)?;
        Ok(value)
    } else {
        Err(Stop::Broken(Broken {
            rule: Rule::new(18),
            at,
        }))
    }
}

/// Two values that are not both arithmetic: void, or pointers.
#[tactic(auto, using(crate::proofs::ChoiceLaws::Steps::not_arithmetic_laws))]
fn not_arithmetic(
    env: &mut Env,
    at: u32,
    condition: Value,
    x: Value,
    y: Value,
) -> Result<Value, Stop>
    requires first { Known env.old.types x }
    requires second { Known env.old.types y }
    ensures made { Agrees (shut.not_arithmetic at condition x y env.old) result env.new }
    ensures known { IfOk result (λ v. Known env.new.types v) }
    ensures grows { OnOk result (Grows env.old.types env.new.types) }
{
    if are_void(env, &x, &y) {
        let ty = x.ty();
        let value = one_of(env, at, condition, x, y, ty)?;
        Ok(value)
    } else {
        let value = pointers(env, at, condition, x, y)?;
        Ok(value)
    }
}

/// Two plain values, by their types (5.16).
#[tactic(auto, using(crate::proofs::ChoiceLaws::Steps::alternatives_laws))]
pub(crate) fn alternatives(
    env: &mut Env,
    at: u32,
    condition: Value,
    x: Value,
    y: Value,
) -> Result<Value, Stop>
    requires first { Known env.old.types x }
    requires second { Known env.old.types y }
    ensures made { Agrees (shut.alternatives at condition x y env.old) result env.new }
    ensures known { IfOk result (λ v. Known env.new.types v) }
    ensures grows { OnOk result (Grows env.old.types env.new.types) }
{
    match common_kind(env, &x, &y) {
        Some(kind) => {
            let value = both_arithmetic(env, at, condition, x, y, kind)?;
            Ok(value)
        }
        None => {
            let value = not_arithmetic(env, at, condition, x, y)?;
            Ok(value)
        }
    }
}
