ghost use Rattle.std.specs.Prelude.{IfOk, OnOk};
ghost use Rattle.cf_elab_env.specs.Answered.{Agrees};
ghost use Rattle.cf_elab_env.specs.Holds.{Known, Grows};
ghost use Rattle.cf_elab_operators.specs.Operators.Shut as shut;

use crate::binary::{increment, prefixed};
use cf_elab_env::{Env, Stop, Value};
use cf_syntax::{PrefixOp, StepOp};

/// A unary operator before its operand: K12 where `&` takes no lvalue, and K18 where another operator does not take the type (5.3).
#[tactic(auto, using(crate::proofs::OperatorsLaws::OneLaws::prefix_laws))]
pub fn prefix_operator(env: &mut Env, at: u32, op: PrefixOp, operand: Value) -> Result<Value, Stop>
    requires { Known env.old.types operand }
    ensures made { Agrees (shut.prefix_operator at op operand env.old) result env.new }
    ensures known { IfOk result (λ v. Known env.new.types v) }
    ensures grows { OnOk result (Grows env.old.types env.new.types) }
{
    env.holds();
    let value = prefixed(env, at, op, operand)?;
    Ok(value)
}

/// `++` and `--`: K12 where the operand may not be changed, K18 where it is no integer and no pointer to an object, and K30 where that object is
/// not complete (5.2.5, 5.3.1). Behind its operand the operator has a second one, an `int`, which operator functions take (13.4).
#[tactic(auto, using(crate::proofs::OperatorsLaws::OneLaws::step_laws))]
pub fn step_operator(
    env: &mut Env,
    at: u32,
    op: StepOp,
    is_postfix: bool,
    operand: Value,
) -> Result<Value, Stop>
    requires { Known env.old.types operand }
    ensures made { Agrees (shut.step_operator at op is_postfix operand env.old) result env.new }
    ensures known { IfOk result (λ v. Known env.new.types v) }
    ensures grows { OnOk result (Grows env.old.types env.new.types) }
{
    if is_postfix {
        let _second = env.int()?;
        env.holds();
        let value = increment(env, at, op, true, operand)?;
        Ok(value)
    } else {
        env.holds();
        let value = increment(env, at, op, false, operand)?;
        Ok(value)
    }
}
