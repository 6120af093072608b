ghost use Rattle.std.specs.Prelude.{◌≡◌, IfOk, OnOk};
ghost use Rattle.cf_elab.specs.Answer.{Made};
ghost use Rattle.cf_elab_operators.specs.Binary.Asked as asked;
ghost use Rattle.cf_elab_operators.specs.Binary.Shut as shut;
ghost use Rattle.cf_elab_env.specs.Answered.{Agrees};
ghost use Rattle.cf_elab_env.specs.Holds.{Known, Grows, IsType};

use crate::binary::fitted::alike_pointers;
use crate::binary::operators::{equality, ordering};
use cf_base::{Boxed, Memory};
use cf_core::{Core, PointerOperator};
use cf_elab_arith::{broken, is_complete};
use cf_elab_env::{Env, Stop, Value};
use cf_syntax::BinaryOp;
use cf_types::TyId;

/// An operator on two pointers of one type, which gives an `int`.
#[tactic(auto, using(crate::proofs::BinaryLaws::PairLaws::of_pointers_laws))]
pub(crate) fn of_pointers(
    env: &mut Env,
    at: u32,
    op: PointerOperator,
    x: Value,
    y: Value,
) -> Result<Value, Memory>
    ensures made { IfOk result (λ v. shut.of_pointers at op x y env.old ≡ Made v env.new) }
    ensures known { IfOk result (λ v. Known env.new.types v) }
    ensures grows { OnOk result (Grows env.old.types env.new.types) }
{
    let ty = env.int()?;
    let node = Boxed::new(
        env.alloc(),
        Core::PointerOperate {
            at,
            op,
            left: x.into_node(),
            right: y.into_node(),
        },
    )?;
    Ok(Value::computed(at, node, ty))
}

/// Whether objects of both types hold no class that is not defined (9.1).
#[tactic(auto, unfolding(crate::specs::Binary::Asked::are_complete))]
fn are_complete(env: &Env, left: TyId, right: TyId) -> bool
    requires left_known { IsType env.now.types left }
    requires right_known { IsType env.now.types right }
    ensures { result ≡ asked.are_complete env.now left right }
{
    is_complete(env, left) && is_complete(env, right)
}

/// Two pointers to objects of these types by order: K18 where they have no type in common, and K30 where an object is not complete (5.7, 5.9).
#[tactic(auto, using(crate::proofs::BinaryLaws::PairLaws::ordered_laws))]
fn ordered(
    env: &mut Env,
    at: u32,
    op: PointerOperator,
    x: Value,
    y: Value,
    left: TyId,
    right: TyId,
) -> Result<Value, Stop>
    requires x_known { Known env.old.types x }
    requires y_known { Known env.old.types y }
    requires left_known { IsType env.old.types left }
    requires right_known { IsType env.old.types right }
    ensures made { Agrees (shut.ordered at op x y left right env.old) result env.new }
    ensures known { IfOk result (λ v. Known env.new.types v) }
    ensures grows { OnOk result (Grows env.old.types env.new.types) }
{
    let are_complete = are_complete(env, left, right);
    let (a, b) = alike_pointers(env, at, x, y, left, right)?;
    if are_complete {
        let value = of_pointers(env, at, op, a, b)?;
        Ok(value)
    } else {
        Err(Stop::Broken(broken(30, at)))
    }
}

/// Two pointers to objects of these types by equality: K18 where they have no type in common (5.10).
#[tactic(auto, using(crate::proofs::BinaryLaws::PairLaws::equated_laws))]
fn equated(
    env: &mut Env,
    at: u32,
    op: PointerOperator,
    x: Value,
    y: Value,
    left: TyId,
    right: TyId,
) -> Result<Value, Stop>
    requires x_known { Known env.old.types x }
    requires y_known { Known env.old.types y }
    requires left_known { IsType env.old.types left }
    requires right_known { IsType env.old.types right }
    ensures made { Agrees (shut.equated at op x y left right env.old) result env.new }
    ensures known { IfOk result (λ v. Known env.new.types v) }
    ensures grows { OnOk result (Grows env.old.types env.new.types) }
{
    let (a, b) = alike_pointers(env, at, x, y, left, right)?;
    let value = of_pointers(env, at, op, a, b)?;
    Ok(value)
}

/// Two pointers to objects of these types, by order or equality; no other operator takes them, K18.
#[tactic(auto, using(crate::proofs::BinaryLaws::PairLaws::same_objects_laws))]
pub(crate) fn same_objects(
    env: &mut Env,
    at: u32,
    op: BinaryOp,
    x: Value,
    y: Value,
    left: TyId,
    right: TyId,
) -> Result<Value, Stop>
    requires x_known { Known env.old.types x }
    requires y_known { Known env.old.types y }
    requires left_known { IsType env.old.types left }
    requires right_known { IsType env.old.types right }
    ensures made { Agrees (shut.same_objects at op x y left right env.old) result env.new }
    ensures known { IfOk result (λ v. Known env.new.types v) }
    ensures grows { OnOk result (Grows env.old.types env.new.types) }
{
    if let Some(order) = ordering(op) {
        let value = ordered(env, at, order, x, y, left, right)?;
        return Ok(value);
    }
    match equality(op) {
        Some(test) => {
            let value = equated(env, at, test, x, y, left, right)?;
            Ok(value)
        }
        None => Err(Stop::Broken(broken(18, at))),
    }
}
