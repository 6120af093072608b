ghost use Rattle.std.specs.Prelude.{◌≡◌, Some, IfOk, OnOk};
ghost use Rattle.cf_elab.specs.Operand as operand;
ghost use Rattle.cf_elab_operators.specs.Binary.Shut as shut;
ghost use Rattle.cf_elab_env.specs.Answered.{Agrees};
ghost use Rattle.cf_elab_env.specs.Holds.{Known, Grows, IsType};

use crate::binary::operators::equality;
use crate::binary::pairs::of_pointers;
use cf_core::PointerOperator;
use cf_elab_arith::broken;
use cf_elab_env::{Env, Stop, Value};
use cf_elab_fit::fit;
use cf_syntax::BinaryOp;
use cf_types::TyId;

/// Two values of which one is the constant 0, compared as values of the other's type; else K18 (5.10).
#[tactic(auto, using(crate::proofs::BinaryLaws::NullLaws::with_null_laws))]
pub(crate) fn with_null(
    env: &mut Env,
    at: u32,
    op: BinaryOp,
    x: Value,
    y: Value,
) -> Result<Value, Stop>
    requires x_known { Known env.old.types x }
    requires y_known { Known env.old.types y }
    ensures made { Agrees (shut.with_null at op x y env.old) result env.new }
    ensures known { IfOk result (λ v. Known env.new.types v) }
    ensures grows { OnOk result (Grows env.old.types env.new.types) }
{
    if is_zero(y.number()) {
        let to = x.ty();
        let value = with_other(env, at, equality(op), x, y, to)?;
        Ok(value)
    } else if is_zero(x.number()) {
        let to = y.ty();
        let value = with_other(env, at, equality(op), x, y, to)?;
        Ok(value)
    } else {
        Err(Stop::Broken(broken(18, at)))
    }
}

/// Whether a number is known to be 0.
fn is_zero(number: Option<i64>) -> bool
    ensures { result ≡ operand.is_zero number }
{
    match number {
        Some(value) => is_zero_number(value),
        None => false,
    }
}

#[tactic(auto, using(cf_elab_fit::proofs::Converted::not_zero))]
fn is_zero_number(value: i64) -> bool
    ensures { result ≡ operand.is_zero (Some value) }
{
    if value == 0 { true } else { false }
}

/// Two values compared as values of this type, where the operator compares for equality; else K18.
#[tactic(auto, using(crate::proofs::BinaryLaws::NullLaws::with_other_laws))]
pub(crate) fn with_other(
    env: &mut Env,
    at: u32,
    op: Option<PointerOperator>,
    x: Value,
    y: Value,
    to: TyId,
) -> Result<Value, Stop>
    requires x_known { Known env.old.types x }
    requires y_known { Known env.old.types y }
    requires to_known { IsType env.old.types to }
    ensures made { Agrees (shut.with_other at op x y to env.old) result env.new }
    ensures known { IfOk result (λ v. Known env.new.types v) }
    ensures grows { OnOk result (Grows env.old.types env.new.types) }
{
    match op {
        Some(op) => {
            let value = both_fitted(env, at, op, x, y, to)?;
            Ok(value)
        }
        None => Err(Stop::Broken(broken(18, at))),
    }
}

/// Two values as values of this type, with an operator on both.
#[tactic(auto, using(crate::proofs::BinaryLaws::NullLaws::both_fitted_laws))]
fn both_fitted(
    env: &mut Env,
    at: u32,
    op: PointerOperator,
    x: Value,
    y: Value,
    to: TyId,
) -> Result<Value, Stop>
    requires x_known { Known env.old.types x }
    requires y_known { Known env.old.types y }
    requires to_known { IsType env.old.types to }
    ensures made { Agrees (shut.both_fitted at op x y to env.old) result env.new }
    ensures known { IfOk result (λ v. Known env.new.types v) }
    ensures grows { OnOk result (Grows env.old.types env.new.types) }
{
    let a = fit(env, at, x, to)?;
    let b = fit(env, at, y, to)?;
    let value = of_pointers(env, at, op, a, b)?;
    Ok(value)
}
