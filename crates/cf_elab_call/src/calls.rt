ghost use Rattle.std.specs.Prelude.{◌≡◌, ◌<◌, ◌∷◌, [], length, All, IfOk, OnOk};
ghost use Rattle.cf_elab_call.specs.Shut as shut;
ghost use Rattle.cf_elab_env.specs.Answered.{Agrees};
ghost use Rattle.cf_elab_env.specs.Holds.{Known, Grows, IsType};

use crate::matching::check_arguments;
use crate::passing::arguments;
use crate::results::called;
use crate::signature::{Signature, signature_at};
use cf_base::{Boxed, Items, Name};
use cf_core::Core;
use cf_elab_arith::broken;
use cf_elab_env::{Env, Stop, Value};
use cf_types::TyId;

/// A call of the functions of one name, by their numbers: K15 where there is one and it takes more or fewer arguments, and K46 where none
/// takes them (5.2.2, 13.2). The choice among several is not built: it answers want of memory, which no file comes to whose extent is without
/// overloads.
#[tactic(auto, using(crate::proofs::CallLaws::functions_laws))]
pub fn call_functions(
    env: &mut Env,
    at: u32,
    numbers: &[u32],
    values: Items<Value>,
) -> Result<Value, Stop>
    requires { All (λ v. Known env.old.types v) values }
    ensures made { Agrees (shut.call_functions at numbers.now values env.old) result env.new }
    ensures known { IfOk result (λ v. Known env.new.types v) }
    ensures grows { OnOk result (Grows env.old.types env.new.types) }
{
    match numbers {
        [] => Err(Stop::Broken(broken(46, at))),
        [number] => {
            let value = call_numbered(env, at, *number, values)?;
            Ok(value)
        }
        // Without overloads a name has one function.
        _ => Err(Stop::Memory),
    }
}

/// A call of the function of this number.
#[tactic(auto, using(crate::proofs::CallLaws::numbered_laws))]
fn call_numbered(env: &mut Env, at: u32, number: u32, values: Items<Value>) -> Result<Value, Stop>
    requires { All (λ v. Known env.old.types v) values }
    ensures made { Agrees (shut.call_functions at (number ∷ []) values env.old) result env.new }
    ensures known { IfOk result (λ v. Known env.new.types v) }
    ensures grows { OnOk result (Grows env.old.types env.new.types) }
{
    if (number as usize) < env.entries().len() {
        let value = call_declared(env, at, number, values)?;
        Ok(value)
    } else {
        Err(Stop::Broken(broken(46, at)))
    }
}

/// A call of the declared function of this number.
fn call_declared(env: &mut Env, at: u32, number: u32, values: Items<Value>) -> Result<Value, Stop>
    requires known { All (λ v. Known env.old.types v) values }
    requires declared { number < length env.old.entries }
    ensures made { Agrees (shut.call_functions at (number ∷ []) values env.old) result env.new }
    ensures known { IfOk result (λ v. Known env.new.types v) }
    ensures grows { OnOk result (Grows env.old.types env.new.types) }
{
    let entry = env.entry(number);
    let ty = entry.ty;
    let link = Items::from_slice(env.alloc(), entry.link.as_slice())?;
    let signature = signature_at(env, ty)?;
    check_arguments(env, at, signature.params.as_slice(), values.as_slice())?;
    let value = call_direct(env, at, link, ty, signature, values)?;
    Ok(value)
}

/// A call of the function of this link name and type.
#[tactic(auto, using(crate::proofs::CallLaws::direct_laws))]
fn call_direct(
    env: &mut Env,
    at: u32,
    link: Name,
    ty: TyId,
    signature: Signature,
    values: Items<Value>,
) -> Result<Value, Stop>
    requires known { All (λ v. Known env.old.types v) values }
    requires params_known { All (λ t. IsType env.old.types t) signature.params }
    requires as_many { length values ≡ length signature.params }
    requires returns_known { IsType env.old.types signature.returns }
    ensures made { Agrees (shut.direct at link ty signature.params signature.returns values env.old) result env.new }
    ensures known { IfOk result (λ v. Known env.new.types v) }
    ensures grows { OnOk result (Grows env.old.types env.new.types) }
{
    let arguments = arguments(env, at, signature.params.as_slice(), values)?;
    let call = Boxed::new(
        env.alloc(),
        Core::Call {
            at,
            function: link,
            ty,
            object: None,
            arguments,
        },
    )?;
    let value = called(env, at, signature.returns, call)?;
    Ok(value)
}

/// A call through a pointer to a function of this type: K15 where it takes more or fewer arguments, and K46 where one is not converted (5.2.2).
pub fn call_pointer(
    env: &mut Env,
    at: u32,
    pointer: Value,
    ty: TyId,
    values: Items<Value>,
) -> Result<Value, Stop>
    requires known { All (λ v. Known env.old.types v) values }
    requires typed { IsType env.old.types ty }
    ensures made { Agrees (shut.call_pointer at pointer ty values env.old) result env.new }
    ensures known { IfOk result (λ v. Known env.new.types v) }
    ensures grows { OnOk result (Grows env.old.types env.new.types) }
{
    let signature = signature_at(env, ty)?;
    check_arguments(env, at, signature.params.as_slice(), values.as_slice())?;
    let value = call_through(env, at, pointer, ty, signature, values)?;
    Ok(value)
}

/// A call of the function of this type that the pointer leads to.
#[tactic(auto, using(crate::proofs::CallLaws::through_laws))]
fn call_through(
    env: &mut Env,
    at: u32,
    pointer: Value,
    ty: TyId,
    signature: Signature,
    values: Items<Value>,
) -> Result<Value, Stop>
    requires known { All (λ v. Known env.old.types v) values }
    requires params_known { All (λ t. IsType env.old.types t) signature.params }
    requires as_many { length values ≡ length signature.params }
    requires returns_known { IsType env.old.types signature.returns }
    ensures made { Agrees (shut.through at pointer ty signature.params signature.returns values env.old) result env.new }
    ensures known { IfOk result (λ v. Known env.new.types v) }
    ensures grows { OnOk result (Grows env.old.types env.new.types) }
{
    let arguments = arguments(env, at, signature.params.as_slice(), values)?;
    let call = Boxed::new(
        env.alloc(),
        Core::PointerCall {
            at,
            object: None,
            pointer: pointer.into_node(),
            ty,
            arguments,
        },
    )?;
    let value = called(env, at, signature.returns, call)?;
    Ok(value)
}
