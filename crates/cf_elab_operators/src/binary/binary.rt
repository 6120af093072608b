ghost use Rattle.std.specs.Prelude.{IfOk, OnOk};
ghost use Rattle.cf_elab_operators.specs.Binary.Shut as shut;
ghost use Rattle.cf_elab_env.specs.Answered.{Agrees};
ghost use Rattle.cf_elab_env.specs.Holds.{Known, Grows};

use crate::binary::sorts::by_sorts;
use cf_elab_arith::{conjunction, disjunction};
use cf_elab_env::{Env, Stop, Value};
use cf_elab_fit::plain;
use cf_syntax::BinaryOp;

/// A binary operator on two operands that are no class objects. A side of `&&` and `||` that is no condition is K13; operands that the operator
/// does not take are K18, and a pointer whose object is not complete is K30 where it is moved or ordered (5.6 to 5.15).
#[tactic(auto, using(crate::proofs::BinaryLaws::OperationLaws::operation_laws))]
pub fn operation(env: &mut Env, at: u32, op: BinaryOp, x: Value, y: Value) -> Result<Value, Stop>
    requires x_known { Known env.old.types x }
    requires y_known { Known env.old.types y }
    ensures made { Agrees (shut.operation at op x y env.old) result env.new }
    ensures known { IfOk result (λ v. Known env.new.types v) }
    ensures grows { OnOk result (Grows env.old.types env.new.types) }
{
    match op {
        BinaryOp::LogicalAnd => {
            let value = conjunction(env, at, x, y)?;
            Ok(value)
        }
        BinaryOp::LogicalOr => {
            let value = disjunction(env, at, x, y)?;
            Ok(value)
        }
        _ => {
            let value = of_plain(env, at, op, x, y)?;
            Ok(value)
        }
    }
}

/// An operator on the values of both operands.
#[tactic(auto, using(crate::proofs::BinaryLaws::OperationLaws::of_plain_laws))]
fn of_plain(env: &mut Env, at: u32, op: BinaryOp, x: Value, y: Value) -> Result<Value, Stop>
    requires x_known { Known env.old.types x }
    requires y_known { Known env.old.types y }
    ensures made { Agrees (shut.of_plain at op x y env.old) result env.new }
    ensures known { IfOk result (λ v. Known env.new.types v) }
    ensures grows { OnOk result (Grows env.old.types env.new.types) }
{
    let left = plain(env, x)?;
    let right = plain(env, y)?;
    let value = by_sorts(env, at, op, left, right)?;
    Ok(value)
}
