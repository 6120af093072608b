ghost use Rattle.std.specs.Prelude.{◌≡◌, ◌<◌, length, slice_get, Some, All, OnOk};
ghost use Rattle.cf_elab_call.specs.Shut as shut;
ghost use Rattle.cf_elab_env.specs.Answered.{Agrees};
ghost use Rattle.cf_elab_env.specs.Holds.{Known, Grows, IsType};

use cf_base::Items;
use cf_core::Core;
use cf_elab_env::{Env, Stop, Value};
use cf_elab_initial::{Keeping, initial};
use cf_types::TyId;

/// The arguments of a call, each as its parameter takes it, in order (5.2.2). There are as many as parameters.
pub fn arguments(
    env: &mut Env,
    at: u32,
    params: &[TyId],
    values: Items<Value>,
) -> Result<Items<Core>, Stop>
    requires known { All (λ v. Known env.old.types v) values }
    requires params_known { All (λ t. IsType env.old.types t) params.now }
    requires as_many { length values ≡ length params.now }
    ensures made { Agrees (shut.arguments at params.now values env.old) result env.new }
    ensures grows { OnOk result (Grows env.old.types env.new.types) }
{
    let mut arguments = Items::new(env.alloc());
    for value in values.into_vec() {
        let param = param_at(params, arguments.len());
        let start = initial(env, &Keeping::FullExpression, at, param, value)?;
        arguments.push(start.into_node().into_inner())?;
    }
    Ok(arguments)
}

/// The parameter at this place.
fn param_at(params: &[TyId], place: usize) -> TyId
    requires { place < length params.now }
    ensures { slice_get params.now place ≡ Some result }
{
    params[place]
}
