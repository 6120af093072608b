ghost use Rattle.std.specs.Prelude.{IfOk, OnOk};
ghost use Rattle.cf_elab_operators.specs.Assign.Shut as shut;
ghost use Rattle.cf_elab_env.specs.Answered.{Agrees};
ghost use Rattle.cf_elab_env.specs.Holds.{Known, Grows};

use crate::assign::combined::combined;
use crate::assign::operators::updating;
use crate::binary::check_modifiable;
use cf_base::{Arith, Boxed};
use cf_core::Core;
use cf_elab_env::{Env, Stop, Value};
use cf_elab_fit::{fit, plain};
use cf_syntax::AssignOp;

/// An assignment to a place that is no class object: K12 where it may not be changed, and then K13 or K25 where `=` does not convert the value to
/// its type, or K18 or K30 where the operator of a compound one does not take the two, K13 or K25 where its result is not converted back (5.17).
#[tactic(auto, using(crate::proofs::AssignLaws::AssignmentLaws::assignment_laws))]
pub fn assignment(
    env: &mut Env,
    at: u32,
    op: AssignOp,
    place: Value,
    value: Value,
) -> Result<Value, Stop>
    requires place_known { Known env.old.types place }
    requires value_known { Known env.old.types value }
    ensures made { Agrees (shut.assignment at op place value env.old) result env.new }
    ensures known { IfOk result (λ v. Known env.new.types v) }
    ensures grows { OnOk result (Grows env.old.types env.new.types) }
{
    match updating(op) {
        Some(op) => {
            let assigned = update(env, at, op, place, value)?;
            Ok(assigned)
        }
        None => {
            let assigned = stored(env, at, place, value)?;
            Ok(assigned)
        }
    }
}

/// `=`: the value as one of the type of the place.
#[tactic(auto, using(crate::proofs::AssignLaws::AssignmentLaws::stored_laws))]
fn stored(env: &mut Env, at: u32, place: Value, value: Value) -> Result<Value, Stop>
    requires place_known { Known env.old.types place }
    requires value_known { Known env.old.types value }
    ensures made { Agrees (shut.stored at place value env.old) result env.new }
    ensures known { IfOk result (λ v. Known env.new.types v) }
    ensures grows { OnOk result (Grows env.old.types env.new.types) }
{
    check_modifiable(env, at, &place)?;
    let ty = place.ty();
    let fitted = fit(env, at, value, ty)?;
    let node = Boxed::new(
        env.alloc(),
        Core::Store {
            at,
            place: place.into_node(),
            value: fitted.into_node(),
        },
    )?;
    Ok(Value::place(at, node, ty, false))
}

/// A compound assignment by this operator.
#[tactic(auto, using(crate::proofs::AssignLaws::AssignmentLaws::update_laws))]
fn update(env: &mut Env, at: u32, op: Arith, place: Value, value: Value) -> Result<Value, Stop>
    requires place_known { Known env.old.types place }
    requires value_known { Known env.old.types value }
    ensures made { Agrees (shut.update at op place value env.old) result env.new }
    ensures known { IfOk result (λ v. Known env.new.types v) }
    ensures grows { OnOk result (Grows env.old.types env.new.types) }
{
    check_modifiable(env, at, &place)?;
    let operand = plain(env, value)?;
    let updated = combined(env, at, op, place, operand)?;
    Ok(updated)
}
