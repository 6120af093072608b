ghost use Rattle.std.specs.Prelude.{◌≡◌, All, IfOk, OnOk};
ghost use Rattle.std.specs.Option.{ForSome};
ghost use Rattle.cf_elab_call.specs.Callees as callees;
ghost use Rattle.cf_elab_call.specs.Shut as shut;
ghost use Rattle.cf_elab_env.specs.Answered.{Agrees};
ghost use Rattle.cf_elab_env.specs.Holds.{Known, Grows, IsType, IsSort};
ghost use Rattle.cf_elab_env.specs.Seen.{sort_seen};
ghost use Rattle.cf_elab_env.specs.SeenOperand.{operand_seen};
ghost use Rattle.cf_elab_operand.specs.Operands.{IsOperand};

use crate::calls::{call_functions, call_pointer};
use cf_base::Items;
use cf_elab_arith::broken;
use cf_elab_env::{Env, Operand, Sort, Stop, Value};
use cf_elab_fit::plain;
use cf_types::TyId;

/// A call of what an expression is: of functions by their name, or of a value. No value is a class object.
#[tactic(auto, using(crate::proofs::CalleeLaws::operand_laws))]
pub fn call_operand(
    env: &mut Env,
    at: u32,
    callee: Operand,
    values: Items<Value>,
) -> Result<Value, Stop>
    requires known { All (λ v. Known env.old.types v) values }
    requires callee_known { IsOperand env.old.types callee }
    ensures made { Agrees (shut.call_operand at (operand_seen callee) values env.old) result env.new }
    ensures known { IfOk result (λ v. Known env.new.types v) }
    ensures grows { OnOk result (Grows env.old.types env.new.types) }
{
    match callee {
        Operand::Value(function) => {
            let value = call_operator(env, at, function, values)?;
            Ok(value)
        }
        Operand::Functions { numbers, .. } => {
            let value = call_functions(env, at, numbers.as_slice(), values)?;
            Ok(value)
        }
    }
}

/// A call of a value that is no class object.
fn call_operator(
    env: &mut Env,
    at: u32,
    function: Value,
    values: Items<Value>,
) -> Result<Value, Stop>
    requires known { All (λ v. Known env.old.types v) values }
    requires function_known { Known env.old.types function }
    ensures made { Agrees (shut.call_operator at function values env.old) result env.new }
    ensures known { IfOk result (λ v. Known env.new.types v) }
    ensures grows { OnOk result (Grows env.old.types env.new.types) }
{
    let _no_class = env.sort_of(function.ty());
    let value = call_value(env, at, function, values)?;
    Ok(value)
}

/// A call of a function, or of a pointer or reference to one; else K18 (5.2.2).
#[tactic(auto, using(crate::proofs::CalleeLaws::value_laws))]
pub fn call_value(
    env: &mut Env,
    at: u32,
    function: Value,
    values: Items<Value>,
) -> Result<Value, Stop>
    requires known { All (λ v. Known env.old.types v) values }
    requires function_known { Known env.old.types function }
    ensures made { Agrees (shut.call_value at function values env.old) result env.new }
    ensures known { IfOk result (λ v. Known env.new.types v) }
    ensures grows { OnOk result (Grows env.old.types env.new.types) }
{
    let pointer = plain(env, function)?;
    let value = call_plain(env, at, pointer, values)?;
    Ok(value)
}

/// The same of a plain value.
#[tactic(auto, using(crate::proofs::CalleeLaws::plain_laws))]
fn call_plain(env: &mut Env, at: u32, pointer: Value, values: Items<Value>) -> Result<Value, Stop>
    requires known { All (λ v. Known env.old.types v) values }
    requires pointer_known { Known env.old.types pointer }
    ensures made { Agrees (shut.call_plain at pointer values env.old) result env.new }
    ensures known { IfOk result (λ v. Known env.new.types v) }
    ensures grows { OnOk result (Grows env.old.types env.new.types) }
{
    match function_at(env, pointer.ty()) {
        Some(ty) => {
            let value = call_pointer(env, at, pointer, ty, values)?;
            Ok(value)
        }
        None => Err(Stop::Broken(broken(18, at))),
    }
}

/// The type of the function that a pointer leads to.
#[tactic(auto, unfolding(crate::specs::Callees::function_at))]
fn function_at(env: &Env, ty: TyId) -> Option<TyId>
    requires { IsType env.now.types ty }
    ensures value { result ≡ callees.function_at env.now.types ty }
    ensures known { ForSome result (λ t. IsType env.now.types t) }
{
    function_of(env, env.sort_of(ty))
}

fn function_of(env: &Env, sort: Sort) -> Option<TyId>
    requires { IsSort env.now.types sort }
    ensures value { result ≡ callees.function_of (sort_seen sort) }
    ensures known { ForSome result (λ t. IsType env.now.types t) }
{
    let _env = env;
    match sort {
        Sort::FunctionPointer(ty) => Some(ty),
        _ => None,
    }
}
