ghost use Rattle.std.specs.Prelude.{All, map, IfOk};
ghost use Rattle.cf_elab_env.specs.Answered.{Agrees};
ghost use Rattle.cf_elab_env.specs.Holds.{Known};
ghost use Rattle.cf_elab_env.specs.SeenOperand.{operand_seen};
ghost use Rattle.cf_elab_operand.specs.Operands.{IsOperand};
ghost use Rattle.cf_elab_operand.specs.Shut as shut;

use crate::functions::one_function;
use cf_base::Items;
use cf_elab_arith::broken;
use cf_elab_env::{Env, Operand, Stop, Value};

/// The value of an operand where no type is wanted: K46 where its name stands for several functions (13.3).
#[tactic(auto, using(crate::proofs::ValueLaws::value_laws))]
pub fn value_of(env: &Env, operand: Operand) -> Result<Value, Stop>
    requires { IsOperand env.now.types operand }
    ensures made { Agrees (shut.value_of (operand_seen operand) env.now) result env.now }
    ensures known { IfOk result (λ v. Known env.now.types v) }
{
    match operand {
        Operand::Value(value) => Ok(value),
        Operand::Functions { at, numbers } => {
            let value = value_named(env, at, numbers.as_slice())?;
            Ok(value)
        }
    }
}

/// The value of the functions of one name.
#[tactic(auto, using(crate::proofs::ValueLaws::functions_laws))]
fn value_named(env: &Env, at: u32, numbers: &[u32]) -> Result<Value, Stop>
    ensures made { Agrees (shut.value_named at numbers.now env.now) result env.now }
    ensures known { IfOk result (λ v. Known env.now.types v) }
{
    match numbers {
        [number] => {
            let value = one_function(env, at, *number)?;
            Ok(value)
        }
        _ => Err(Stop::Broken(broken(46, at))),
    }
}

/// The value of each operand, in order.
pub fn values(env: &Env, operands: Items<Operand>) -> Result<Items<Value>, Stop>
    requires { All (λ o. IsOperand env.now.types o) operands }
    ensures made { Agrees (shut.values (map operand_seen operands) env.now) result env.now }
    ensures known { IfOk result (λ vs. All (λ v. Known env.now.types v) vs) }
{
    let mut values = Items::new(env.alloc());
    for operand in operands.into_vec() {
        let value = value_of(env, operand)?;
        values.push(value)?;
    }
    Ok(values)
}
