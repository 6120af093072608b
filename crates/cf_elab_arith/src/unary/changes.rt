ghost use Rattle.std.specs.Prelude.{◌≡◌, ◌&&◌, not, if◌then◌else◌, IfOk};
ghost use Rattle.cf_convert.specs.Constness.{bare};
ghost use Rattle.cf_elab.specs.Operand as operand;
ghost use Rattle.cf_elab.specs.Unary as unary;
ghost use Rattle.cf_elab_env.specs.Answered.{Agrees};
ghost use Rattle.cf_elab_env.specs.Holds.{Known, IsType};
ghost use Rattle.cf_elab_env.specs.Seen.{sort_seen};
ghost use Rattle.cf_elab_arith.specs.Unary.Shut as shut;

use crate::arith::{broken, object_at};
use crate::unary::pointers::check_complete;
use cf_base::{Arith, Boxed, Memory};
use cf_core::{Change, Core};
use cf_elab_env::{Env, Sort, Stop, Value};
use cf_syntax::StepOp;
use cf_types::{TyId, promote};

/// A place that may be changed: an lvalue that is neither const nor an array nor a function; else K12 (3.7).
#[tactic(auto, using(crate::proofs::UnaryLaws::ChangeLaws::modifiable_laws))]
pub fn check_modifiable(env: &Env, at: u32, value: &Value) -> Result<(), Stop>
    requires { Known env.now.types value.now }
    ensures { Agrees (shut.need_modifiable at value.now env.now) result env.now }
{
    if is_modifiable(env, value) {
        Ok(())
    } else {
        Err(Stop::Broken(broken(12, at)))
    }
}

fn is_modifiable(env: &Env, value: &Value) -> bool
    requires { Known env.now.types value.now }
    ensures { result ≡ unary.modifiable env.now value.now }
{
    value.is_lvalue() && !env.is_const(value.ty()) && is_object(env.sort_of(value.ty()))
}

/// Whether it is neither an array nor a function.
fn is_object(sort: Sort) -> bool
    ensures { result ≡ (not (operand.is_array (sort_seen sort)) && not (operand.is_function (sort_seen sort))) }
{
    !matches!(sort, Sort::Array(_, _) | Sort::Function(_))
}

/// `++` and `--`: K12 where the operand may not be changed, K18 where it is no integer and no pointer to an object, and K30 where that object is
/// not complete (5.2.5, 5.3.1).
#[tactic(auto, using(crate::proofs::UnaryLaws::ChangeLaws::increment_laws))]
pub fn increment(
    env: &Env,
    at: u32,
    step: StepOp,
    is_postfix: bool,
    value: Value,
) -> Result<Value, Stop>
    requires { Known env.now.types value }
    ensures made { Agrees (shut.increment at step is_postfix value env.now) result env.now }
    ensures known { IfOk result (λ v. Known env.now.types v) }
{
    check_modifiable(env, at, &value)?;
    let ty = value.ty();
    let change = step_change(step, env.sort_of(ty));
    let stepped = changed_by(env, at, is_postfix, value, change)?;
    check_element(env, at, ty)?;
    Ok(stepped)
}

/// What the operator does to a value of this type. An enumeration has none.
fn step_change(step: StepOp, sort: Sort) -> Option<Change>
    ensures { result ≡ unary.step_change step (sort_seen sort) }
{
    match sort {
        Sort::Integral(kind) => Some(Change::Arithmetic {
            op: step_operator(step),
            at: promote(kind),
            to: kind,
        }),
        Sort::ObjectPointer(_) => Some(Change::Moved {
            back: goes_back(step),
        }),
        _ => None,
    }
}

fn step_operator(step: StepOp) -> Arith
    ensures { result ≡ (if unary.goes_back step then Arith.Subtract else Arith.Add) }
{
    match step {
        StepOp::Increment => Arith::Add,
        StepOp::Decrement => Arith::Subtract,
    }
}

fn goes_back(step: StepOp) -> bool
    ensures { result ≡ unary.goes_back step }
{
    matches!(step, StepOp::Decrement)
}

/// The value changed, where there is a change; else K18.
#[tactic(auto, using(crate::proofs::UnaryLaws::ChangeLaws::changed_laws))]
fn changed_by(
    env: &Env,
    at: u32,
    is_postfix: bool,
    value: Value,
    change: Option<Change>,
) -> Result<Value, Stop>
    requires { Known env.now.types value }
    ensures made { Agrees (shut.changed_by at is_postfix value change env.now) result env.now }
    ensures known { IfOk result (λ v. Known env.now.types v) }
{
    match change {
        Some(change) => {
            let stepped = stepped_value(env, at, is_postfix, change, value)?;
            Ok(stepped)
        }
        None => Err(Stop::Broken(broken(18, at))),
    }
}

/// Behind the operand the value before, and before it the operand itself.
#[tactic(auto, using(crate::proofs::UnaryLaws::ChangeLaws::stepped_laws))]
fn stepped_value(
    env: &Env,
    at: u32,
    is_postfix: bool,
    change: Change,
    value: Value,
) -> Result<Value, Memory>
    requires { Known env.now.types value }
    ensures made { IfOk result (λ v. v ≡ unary.stepped_value at is_postfix change value (bare env.now.types value.type)) }
    ensures known { IfOk result (λ v. Known env.now.types v) }
{
    let ty = value.ty();
    let bare = env.bare(ty);
    let place = value.into_node();
    let node = Boxed::new(
        env.alloc(),
        Core::Increment {
            at,
            is_postfix,
            change,
            place,
        },
    )?;
    if is_postfix {
        Ok(Value::computed(at, node, bare))
    } else {
        Ok(Value::place(at, node, ty, false))
    }
}

/// The object that a pointer leads to is complete; else K30 (9.1).
#[tactic(auto, using(crate::proofs::UnaryLaws::ChangeLaws::element_laws))]
fn check_element(env: &Env, at: u32, ty: TyId) -> Result<(), Stop>
    requires { IsType env.now.types ty }
    ensures { Agrees (shut.element_complete at (operand.sort_of env.now.types ty) env.now) result env.now }
{
    match object_at(env, ty) {
        Some(element) => {
            check_complete(env, at, element)?;
            Ok(())
        }
        None => Ok(()),
    }
}
