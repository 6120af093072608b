ghost use Rattle.std.specs.Prelude.{IfOk, OnOk};
ghost use Rattle.cf_elab_operators.specs.Binary.Shut as shut;
ghost use Rattle.cf_elab_env.specs.Answered.{Agrees};
ghost use Rattle.cf_elab_env.specs.Holds.{Known, Grows, IsType};

use crate::binary::nulls::with_null;
use crate::binary::operators::add_or_subtract;
use cf_base::{Boxed, Kind};
use cf_core::{Core, PointerOperator};
use cf_elab_arith::{check_complete, stays_fixed};
use cf_elab_env::{Env, Stop, Value};
use cf_elab_fit::to_kind;
use cf_syntax::BinaryOp;
use cf_types::TyId;

/// A pointer to an object of this type with an integer of this promoted type behind it. By `+` and `-` the pointer is moved; else they are
/// compared, where the integer is the constant 0 (5.7, 5.10).
#[tactic(auto, using(crate::proofs::BinaryLaws::MoveLaws::pointer_and_integer_laws))]
pub(crate) fn pointer_and_integer(
    env: &mut Env,
    at: u32,
    op: BinaryOp,
    pointer: Value,
    element: TyId,
    kind: Kind,
    integer: Value,
) -> Result<Value, Stop>
    requires pointer_known { Known env.old.types pointer }
    requires integer_known { Known env.old.types integer }
    requires element_known { IsType env.old.types element }
    ensures made { Agrees (shut.pointer_and_integer at op pointer element kind integer env.old) result env.new }
    ensures known { IfOk result (λ v. Known env.new.types v) }
    ensures grows { OnOk result (Grows env.old.types env.new.types) }
{
    match add_or_subtract(op) {
        Some(operator) => {
            let value = moved(env, at, operator, pointer, element, kind, integer)?;
            Ok(value)
        }
        None => {
            let value = with_null(env, at, op, pointer, integer)?;
            Ok(value)
        }
    }
}

/// An integer of this promoted type with a pointer to an object of this type behind it. By `+` the pointer is moved; else they are compared,
/// where the integer is the constant 0 (5.7, 5.10).
#[tactic(auto, using(crate::proofs::BinaryLaws::MoveLaws::integer_and_pointer_laws))]
pub(crate) fn integer_and_pointer(
    env: &mut Env,
    at: u32,
    op: BinaryOp,
    integer: Value,
    kind: Kind,
    pointer: Value,
    element: TyId,
) -> Result<Value, Stop>
    requires integer_known { Known env.old.types integer }
    requires pointer_known { Known env.old.types pointer }
    requires element_known { IsType env.old.types element }
    ensures made { Agrees (shut.integer_and_pointer at op integer kind pointer element env.old) result env.new }
    ensures known { IfOk result (λ v. Known env.new.types v) }
    ensures grows { OnOk result (Grows env.old.types env.new.types) }
{
    match op {
        BinaryOp::Add => {
            let value = moved_right(env, at, kind, integer, pointer, element)?;
            Ok(value)
        }
        _ => {
            let value = with_null(env, at, op, integer, pointer)?;
            Ok(value)
        }
    }
}

/// A pointer moved by an integer behind it; the object that it leads to is complete, else K30 (5.7).
#[tactic(auto, using(crate::proofs::BinaryLaws::MoveLaws::moved_laws))]
fn moved(
    env: &mut Env,
    at: u32,
    op: PointerOperator,
    pointer: Value,
    element: TyId,
    kind: Kind,
    integer: Value,
) -> Result<Value, Stop>
    requires pointer_known { Known env.old.types pointer }
    requires integer_known { Known env.old.types integer }
    requires element_known { IsType env.old.types element }
    ensures made { Agrees (shut.moved at op pointer element kind integer env.old) result env.new }
    ensures known { IfOk result (λ v. Known env.new.types v) }
    ensures grows { OnOk result (Grows env.old.types env.new.types) }
{
    check_complete(env, at, element)?;
    let count = to_kind(env, kind, integer)?;
    let is_fixed = stays_fixed(&pointer, &count);
    let ty = pointer.ty();
    let node = Boxed::new(
        env.alloc(),
        Core::PointerOperate {
            at,
            op,
            left: pointer.into_node(),
            right: count.into_node(),
        },
    )?;
    Ok(Value::computed(at, node, ty).with_fixed(is_fixed))
}

/// A pointer moved by an integer before it; the object that it leads to is complete, else K30 (5.7).
#[tactic(auto, using(crate::proofs::BinaryLaws::MoveLaws::moved_right_laws))]
fn moved_right(
    env: &mut Env,
    at: u32,
    kind: Kind,
    integer: Value,
    pointer: Value,
    element: TyId,
) -> Result<Value, Stop>
    requires integer_known { Known env.old.types integer }
    requires pointer_known { Known env.old.types pointer }
    requires element_known { IsType env.old.types element }
    ensures made { Agrees (shut.moved_right at kind integer pointer element env.old) result env.new }
    ensures known { IfOk result (λ v. Known env.new.types v) }
    ensures grows { OnOk result (Grows env.old.types env.new.types) }
{
    check_complete(env, at, element)?;
    let count = to_kind(env, kind, integer)?;
    let is_fixed = stays_fixed(&pointer, &count);
    let ty = pointer.ty();
    let node = Boxed::new(
        env.alloc(),
        Core::PointerOperate {
            at,
            op: PointerOperator::Add,
            left: count.into_node(),
            right: pointer.into_node(),
        },
    )?;
    Ok(Value::computed(at, node, ty).with_fixed(is_fixed))
}
