ghost use Rattle.std.specs.Prelude.{◌≡◌, All, IfOk};
ghost use Rattle.cf_elab_call.specs.Signatures as signatures;
ghost use Rattle.cf_elab_env.specs.Holds.{IsType};

use cf_base::{Items, Memory};
use cf_elab_env::{Env, Sort};
use cf_types::{Fun, TyId};
use std::alloc::Global;

/// The parameters of a function type, and the type of its result.
#[derive(Debug, Drop)]
pub(crate) struct Signature {
    pub params: Items<TyId>,
    pub returns: TyId,
}

/// Those of this type. One that is no function type has no parameters, and the first type for its result.
#[tactic(auto, using(crate::proofs::SignatureLaws::signature_laws))]
pub(crate) fn signature_at(env: &Env, ty: TyId) -> Result<Signature, Memory>
    requires { IsType env.now.types ty }
    ensures params { IfOk result (λ s. s.params ≡ signatures.params_at env.now.types ty) }
    ensures returns { IfOk result (λ s. s.returns ≡ signatures.result_at env.now.types ty) }
    ensures params_known { IfOk result (λ s. All (λ t. IsType env.now.types t) s.params) }
    ensures returns_known { IfOk result (λ s. IsType env.now.types s.returns) }
{
    env.holds();
    match env.sort_of(ty) {
        Sort::Function(fun) => {
            let signature = of_function(env.alloc(), env.types().get_fun(fun))?;
            Ok(signature)
        }
        _ => Ok(Signature {
            params: Items::new(env.alloc()),
            returns: TyId::new(0),
        }),
    }
}

fn of_function(alloc: Global, fun: &Fun) -> Result<Signature, Memory>
    ensures params { IfOk result (λ s. s.params ≡ fun.now.params) }
    ensures returns { IfOk result (λ s. s.returns ≡ fun.now.result) }
{
    let params = Items::from_slice(alloc, fun.params.as_slice())?;
    Ok(Signature {
        params,
        returns: fun.result,
    })
}
