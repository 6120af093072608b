ghost use Rattle.std.specs.Prelude.{IfOk, OnOk};
ghost use Rattle.cf_elab_env.specs.Answered.{Agrees};
ghost use Rattle.cf_elab_env.specs.Holds.{Known, Grows};
ghost use Rattle.cf_elab_operators.specs.Operators.Shut as shut;

use crate::assign::assignment;
use crate::binary::{operation, subscript};
use cf_elab_env::{Env, Stop, Value};
use cf_syntax::{AssignOp, BinaryOp};

/// A binary operator. A side of `&&` and `||` that is no condition is K13; operands that the operator does not take are K18, and a pointer whose
/// object is not complete is K30 where it is moved or ordered (5.6 to 5.15).
#[tactic(auto, using(crate::proofs::OperatorsLaws::TwoLaws::binary_laws))]
pub fn binary_operator(
    env: &mut Env,
    at: u32,
    op: BinaryOp,
    x: Value,
    y: Value,
) -> Result<Value, Stop>
    requires x_known { Known env.old.types x }
    requires y_known { Known env.old.types y }
    ensures made { Agrees (shut.binary_operator at op x y env.old) result env.new }
    ensures known { IfOk result (λ v. Known env.new.types v) }
    ensures grows { OnOk result (Grows env.old.types env.new.types) }
{
    env.holds();
    let value = operation(env, at, op, x, y)?;
    Ok(value)
}

/// `x[y]`: of a pointer to an object and an integer, in either order, else K18; the object is complete, else K30 (5.2.1).
#[tactic(auto, using(crate::proofs::OperatorsLaws::TwoLaws::index_laws))]
pub fn index_operator(env: &mut Env, at: u32, x: Value, y: Value) -> Result<Value, Stop>
    requires x_known { Known env.old.types x }
    requires y_known { Known env.old.types y }
    ensures made { Agrees (shut.index_operator at x y env.old) result env.new }
    ensures known { IfOk result (λ v. Known env.new.types v) }
    ensures grows { OnOk result (Grows env.old.types env.new.types) }
{
    env.holds();
    let value = subscript(env, at, x, y)?;
    Ok(value)
}

/// An assignment: K12 where the place may not be changed, and then K13 or K25 where `=` does not convert the value to its type, and K18, K25 or
/// K30 where a compound operator does not take the two types (5.17).
#[tactic(auto, using(crate::proofs::OperatorsLaws::TwoLaws::assign_laws))]
pub fn assign_operator(
    env: &mut Env,
    at: u32,
    op: AssignOp,
    place: Value,
    value: Value,
) -> Result<Value, Stop>
    requires place_known { Known env.old.types place }
    requires value_known { Known env.old.types value }
    ensures made { Agrees (shut.assign_operator at op place value env.old) result env.new }
    ensures known { IfOk result (λ v. Known env.new.types v) }
    ensures grows { OnOk result (Grows env.old.types env.new.types) }
{
    env.holds();
    let value = assignment(env, at, op, place, value)?;
    Ok(value)
}
