ghost use Rattle.std.specs.Prelude.{◌≡◌, length, All, IfOk, OnOk};
ghost use Rattle.cf_elab_call.specs.Matching as matching;
ghost use Rattle.cf_elab_call.specs.Shut as shut;
ghost use Rattle.cf_elab_env.specs.Answered.{Agrees};
ghost use Rattle.cf_elab_env.specs.Holds.{Known, IsType};

use cf_base::Memory;
use cf_elab_arith::broken;
use cf_elab_env::{Env, Stop, Value};
use cf_elab_fit::steps;
use cf_types::TyId;

/// One function with these parameters takes the arguments: they are as many, else K15, and each is converted, else K46 (13.2).
#[tactic(auto, using(crate::proofs::MatchingLaws::count_laws))]
pub(crate) fn check_arguments(
    env: &Env,
    at: u32,
    params: &[TyId],
    values: &[Value],
) -> Result<(), Stop>
    requires known { All (λ v. Known env.now.types v) values.now }
    requires params_known { All (λ t. IsType env.now.types t) params.now }
    ensures made { Agrees (shut.need_arguments at params.now values.now env.now) result env.now }
    ensures as_many { OnOk result (length values.now ≡ length params.now) }
{
    if values.len() == params.len() {
        check_types(env, at, params, values)?;
        Ok(())
    } else {
        Err(Stop::Broken(broken(15, at)))
    }
}

/// The same where there are as many.
#[tactic(auto, using(crate::proofs::MatchingLaws::type_laws))]
fn check_types(env: &Env, at: u32, params: &[TyId], values: &[Value]) -> Result<(), Stop>
    requires known { All (λ v. Known env.now.types v) values.now }
    requires params_known { All (λ t. IsType env.now.types t) params.now }
    requires as_many { length values.now ≡ length params.now }
    ensures { Agrees (shut.need_arguments at params.now values.now env.now) result env.now }
{
    env.holds();
    if all_convert(env, params, values)? {
        Ok(())
    } else {
        Err(Stop::Broken(broken(46, at)))
    }
}

/// Whether each value is converted to the parameter at its place. There are as many parameters, or more.
#[tactic(auto, using(crate::proofs::MatchingLaws::all_laws))]
fn all_convert(env: &Env, params: &[TyId], values: &[Value]) -> Result<bool, Memory>
    requires known { All (λ v. Known env.now.types v) values.now }
    requires params_known { All (λ t. IsType env.now.types t) params.now }
    ensures { IfOk result (λ b. b ≡ matching.all_convert env.now params.now values.now) }
{
    match (values.split_first(), params.split_first()) {
        (None, _) => Ok(true),
        (Some((value, others)), Some((param, rest))) => {
            if is_converted(env, value, *param)? {
                let all = all_convert(env, rest, others)?;
                Ok(all)
            } else {
                Ok(false)
            }
        }
        _ => Ok(false),
    }
}

/// Whether there is a conversion of the value to the type.
#[tactic(auto, unfolding(crate::specs::Matching::is_converted))]
fn is_converted(env: &Env, value: &Value, to: TyId) -> Result<bool, Memory>
    requires known { Known env.now.types value.now }
    requires to_known { IsType env.now.types to }
    ensures { IfOk result (λ b. b ≡ matching.is_converted env.now value.now to) }
{
    let found = steps(env, value, to)?;
    Ok(found.is_some())
}
