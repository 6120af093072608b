ghost use Rattle.std.specs.Prelude.{◌≡◌, IfOk};
ghost use Rattle.cf_elab_call.specs.Results as results;
ghost use Rattle.cf_elab_call.specs.Shut as shut;
ghost use Rattle.cf_elab_env.specs.Answered.{Agrees};
ghost use Rattle.cf_elab_env.specs.Holds.{Known, IsType};

use cf_base::Boxed;
use cf_core::Core;
use cf_elab_arith::check_complete;
use cf_elab_env::{Env, Stop, Value};
use cf_types::{Ty, TyId};

/// The value of a call that returns this type, which is complete, else K30 (5.2.2).
#[tactic(auto, using(crate::proofs::ResultLaws::called_laws))]
pub fn called(env: &Env, at: u32, returns: TyId, call: Boxed<Core>) -> Result<Value, Stop>
    requires { IsType env.now.types returns }
    ensures made { Agrees (shut.called at returns call env.now) result env.now }
    ensures known { IfOk result (λ v. Known env.now.types v) }
{
    check_complete(env, at, returns)?;
    Ok(returned(env, at, returns, call))
}

/// What a call gives: of a reference the object (8.4.3), and else a value without a const of its own.
#[tactic(auto, using(crate::proofs::ResultLaws::returned_laws))]
fn returned(env: &Env, at: u32, returns: TyId, call: Boxed<Core>) -> Value
    requires { IsType env.now.types returns }
    ensures made { result ≡ results.returned env.now.types at returns call }
    ensures known { Known env.now.types result }
{
    env.holds();
    match env.type_at(returns) {
        Ty::Ref(to) => Value::place(at, call, to, false),
        _ => Value::computed(at, call, env.bare(returns)),
    }
}
