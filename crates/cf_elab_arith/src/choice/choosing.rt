ghost use Rattle.std.specs.Prelude.{◌≡◌, IfOk, OnOk};
ghost use Rattle.cf_elab.specs.Choice as choice;
ghost use Rattle.cf_elab_arith.specs.Choice.Shut as shut;
ghost use Rattle.cf_elab_env.specs.Answered.{Agrees};
ghost use Rattle.cf_elab_env.specs.Holds.{Known, Grows};

use crate::arith::{plain, truth};
use crate::choice::alternatives::alternatives;
use crate::choice::asked::{chosen, is_one_place, no_class};
use cf_base::{Boxed, Memory, Rule};
use cf_core::Core;
use cf_elab_env::{Env, Stop, Value};

/// `c ? a : b`: Truth of the condition, K13; then two places of one type are a place of it, and else the two are values of one type, K18 (5.16).
#[tactic(auto, using(crate::proofs::ChoiceLaws::Steps::conditional_laws))]
pub fn conditional(
    env: &mut Env,
    at: u32,
    condition: Value,
    x: Value,
    y: Value,
) -> Result<Value, Stop>
    requires condition_known { Known env.old.types condition }
    requires first { Known env.old.types x }
    requires second { Known env.old.types y }
    ensures made { Agrees (shut.conditional at condition x y env.old) result env.new }
    ensures known { IfOk result (λ v. Known env.new.types v) }
    ensures grows { OnOk result (Grows env.old.types env.new.types) }
{
    let c = truth(env, Rule::new(13), at, condition)?;
    let value = chosen_one(env, at, c, x, y)?;
    Ok(value)
}

/// What the condition chooses.
#[tactic(auto, using(crate::proofs::ChoiceLaws::Steps::chosen_one_laws))]
fn chosen_one(env: &mut Env, at: u32, condition: Value, x: Value, y: Value) -> Result<Value, Stop>
    requires first { Known env.old.types x }
    requires second { Known env.old.types y }
    ensures made { Agrees (shut.chosen_one at condition x y env.old) result env.new }
    ensures known { IfOk result (λ v. Known env.new.types v) }
    ensures grows { OnOk result (Grows env.old.types env.new.types) }
{
    no_class(env, &x);
    if is_one_place(&x, &y) {
        let place = one_place(env, at, condition, x, y)?;
        Ok(place)
    } else {
        let value = by_values(env, at, condition, x, y)?;
        Ok(value)
    }
}

/// Two places of one type as a place of it, with the chosen number where all are known (5.19).
#[tactic(auto, using(crate::proofs::ChoiceLaws::Chosen::place_known))]
fn one_place(env: &Env, at: u32, condition: Value, x: Value, y: Value) -> Result<Value, Memory>
    requires first { Known env.now.types x }
    requires second { Known env.now.types (record y { type = x.type }) }
    ensures made { IfOk result (λ v. v ≡ choice.one_place at condition x y) }
    ensures known { IfOk result (λ v. Known env.now.types v) }
{
    let ty = x.ty();
    let number = chosen(condition.number(), x.number(), y.number());
    let node = Boxed::new(
        env.alloc(),
        Core::Conditional {
            at,
            condition: condition.into_node(),
            yes: x.into_node(),
            no: y.into_node(),
        },
    )?;
    Ok(Value::place(at, node, ty, false).with_number(number))
}

/// Two values that are read, by their types.
#[tactic(auto, using(crate::proofs::ChoiceLaws::Steps::by_values_laws))]
fn by_values(env: &mut Env, at: u32, condition: Value, x: Value, y: Value) -> Result<Value, Stop>
    requires first { Known env.old.types x }
    requires second { Known env.old.types y }
    ensures made { Agrees (shut.by_values at condition x y env.old) result env.new }
    ensures known { IfOk result (λ v. Known env.new.types v) }
    ensures grows { OnOk result (Grows env.old.types env.new.types) }
{
    let a = plain(env, x)?;
    let b = plain(env, y)?;
    let value = alternatives(env, at, condition, a, b)?;
    Ok(value)
}
