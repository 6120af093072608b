ghost use Rattle.std.specs.Prelude.{◌≡◌, Some, IfOk, OnOk};
ghost use Rattle.cf_elab.specs.Answer.{Made};
ghost use Rattle.cf_elab_operators.specs.Binary.Asked as asked;
ghost use Rattle.cf_elab_operators.specs.Binary.Shut as shut;
ghost use Rattle.cf_elab_env.specs.Answered.{Agrees};
ghost use Rattle.cf_elab_env.specs.Holds.{Known, Grows, IsType};

use cf_base::{Items, Memory};
use cf_convert::ConvStep;
use cf_elab_arith::broken;
use cf_elab_env::{Env, Stop, Value};
use cf_elab_fit::{convert, fit, steps};
use cf_types::TyId;

/// Two pointers to objects of these types as pointers of one type, with const added under both where one has it; else K18 (4.6).
#[tactic(auto, using(crate::proofs::BinaryLaws::FittedLaws::alike_laws))]
pub(crate) fn alike_pointers(
    env: &mut Env,
    at: u32,
    x: Value,
    y: Value,
    left: TyId,
    right: TyId,
) -> Result<(Value, Value), Stop>
    requires x_known { Known env.old.types x }
    requires y_known { Known env.old.types y }
    requires left_known { IsType env.old.types left }
    requires right_known { IsType env.old.types right }
    ensures made { Agrees (shut.alike_pointers at x y left right env.old) result env.new }
    ensures first { IfOk result (λ pair. Known env.new.types pair.0) }
    ensures second { IfOk result (λ pair. Known env.new.types pair.1) }
    ensures grows { OnOk result (Grows env.old.types env.new.types) }
{
    let (t, u) = pointer_types(env, left, right)?;
    let pair = first_fit(env, at, x, y, t, u)?;
    Ok(pair)
}

/// The types of pointers to these two types, each with const where the other has it.
#[tactic(auto, using(crate::proofs::BinaryLaws::FittedLaws::types_laws))]
fn pointer_types(env: &mut Env, left: TyId, right: TyId) -> Result<(TyId, TyId), Memory>
    requires left_known { IsType env.old.types left }
    requires right_known { IsType env.old.types right }
    ensures made { IfOk result (λ pair. shut.pointer_types left right env.old ≡ Made pair env.new) }
    ensures first { IfOk result (λ pair. IsType env.new.types pair.0) }
    ensures second { IfOk result (λ pair. IsType env.new.types pair.1) }
    ensures grows { OnOk result (Grows env.old.types env.new.types) }
{
    let is_left_const = env.is_const(left);
    let is_right_const = env.is_const(right);
    let a = env.const_if(is_right_const, left)?;
    let b = env.const_if(is_left_const, right)?;
    let t = env.pointer_to(a)?;
    let u = env.pointer_to(b)?;
    Ok((t, u))
}

/// The steps of the conversion of a value to this type, if there is one.
#[tactic(auto, unfolding(crate::specs::Binary::Asked::steps_to))]
fn steps_to(env: &Env, value: &Value, to: TyId) -> Result<Option<Items<ConvStep>>, Memory>
    requires known { Known env.now.types value.now }
    requires to_known { IsType env.now.types to }
    ensures { IfOk result (λ found. found ≡ asked.steps_to env.now value.now to) }
{
    let found = steps(env, value, to)?;
    Ok(found)
}

/// The first value as one of the second type, or else the second as one of the first type; else K18.
#[tactic(auto, using(crate::proofs::BinaryLaws::FittedLaws::first_fit_laws))]
fn first_fit(
    env: &mut Env,
    at: u32,
    x: Value,
    y: Value,
    t: TyId,
    u: TyId,
) -> Result<(Value, Value), Stop>
    requires x_known { Known env.old.types x }
    requires y_known { Known env.old.types y }
    requires t_known { IsType env.old.types t }
    requires u_known { IsType env.old.types u }
    ensures made { Agrees (shut.first_fit at x y t u env.old) result env.new }
    ensures first { IfOk result (λ pair. Known env.new.types pair.0) }
    ensures second { IfOk result (λ pair. Known env.new.types pair.1) }
    ensures grows { OnOk result (Grows env.old.types env.new.types) }
{
    match steps_to(env, &x, u)? {
        Some(steps) => {
            let pair = first_by_steps(env, at, x, y, u, steps)?;
            Ok(pair)
        }
        None => {
            let pair = second_fit(env, at, x, y, t)?;
            Ok(pair)
        }
    }
}

/// Both as values of the second type, where the first has these steps to it.
#[tactic(auto, using(crate::proofs::BinaryLaws::FittedLaws::first_by_steps_laws))]
fn first_by_steps(
    env: &mut Env,
    at: u32,
    x: Value,
    y: Value,
    to: TyId,
    steps: Items<ConvStep>,
) -> Result<(Value, Value), Stop>
    requires x_known { Known env.old.types x }
    requires y_known { Known env.old.types y }
    requires to_known { IsType env.old.types to }
    requires steps { asked.steps_to env.old x to ≡ Some steps }
    ensures made { Agrees (shut.first_by_steps at x y to steps env.old) result env.new }
    ensures first { IfOk result (λ pair. Known env.new.types pair.0) }
    ensures second { IfOk result (λ pair. Known env.new.types pair.1) }
    ensures grows { OnOk result (Grows env.old.types env.new.types) }
{
    let a = convert(env, at, to, steps, x)?;
    let b = fit(env, at, y, to)?;
    Ok((a, b))
}

/// Both as values of the first type, where the first has no conversion to the second type; else K18.
#[tactic(auto, using(crate::proofs::BinaryLaws::FittedLaws::second_fit_laws))]
fn second_fit(env: &mut Env, at: u32, x: Value, y: Value, to: TyId) -> Result<(Value, Value), Stop>
    requires x_known { Known env.old.types x }
    requires y_known { Known env.old.types y }
    requires to_known { IsType env.old.types to }
    ensures made { Agrees (shut.second_fit at x y to env.old) result env.new }
    ensures first { IfOk result (λ pair. Known env.new.types pair.0) }
    ensures second { IfOk result (λ pair. Known env.new.types pair.1) }
    ensures grows { OnOk result (Grows env.old.types env.new.types) }
{
    match steps_to(env, &y, to)? {
        Some(steps) => {
            let pair = second_by_steps(env, at, x, y, to, steps)?;
            Ok(pair)
        }
        None => Err(Stop::Broken(broken(18, at))),
    }
}

/// Both as values of the first type, where the second has these steps to it.
#[tactic(auto, using(crate::proofs::BinaryLaws::FittedLaws::second_by_steps_laws))]
fn second_by_steps(
    env: &mut Env,
    at: u32,
    x: Value,
    y: Value,
    to: TyId,
    steps: Items<ConvStep>,
) -> Result<(Value, Value), Stop>
    requires x_known { Known env.old.types x }
    requires y_known { Known env.old.types y }
    requires to_known { IsType env.old.types to }
    requires steps { asked.steps_to env.old y to ≡ Some steps }
    ensures made { Agrees (shut.second_by_steps at x y to steps env.old) result env.new }
    ensures first { IfOk result (λ pair. Known env.new.types pair.0) }
    ensures second { IfOk result (λ pair. Known env.new.types pair.1) }
    ensures grows { OnOk result (Grows env.old.types env.new.types) }
{
    env.holds();
    let a = fit(env, at, x, to)?;
    env.holds();
    let b = convert(env, at, to, steps, y)?;
    Ok((a, b))
}
