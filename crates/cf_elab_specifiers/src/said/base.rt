ghost use Rattle.std.specs.Prelude.{◌≡◌, IfOk, IfSome, OnOk};
ghost use Rattle.cf_elab.specs.Answer.{Made};
ghost use Rattle.cf_elab_env.specs.Holds.{Grows, IsType};
ghost use Rattle.cf_elab_specifiers.specs.Said.Shut as shut;

use crate::said::gathered::Gathered;
use cf_base::Memory;
use cf_elab_env::Env;
use cf_types::TyId;

/// The type that the specifiers name (7.1.6).
#[tactic(auto, using(crate::proofs::SaidLaws::BaseLaws::base_laws))]
pub fn base_type(env: &mut Env, gathered: &Gathered) -> Result<TyId, Memory>
    requires { IfSome gathered.now.named (λ t. IsType env.old.types t) }
    ensures made { IfOk result (λ t. shut.base_type gathered.now env.old ≡ Made t env.new) }
    ensures known { IfOk result (λ t. IsType env.new.types t) }
    ensures grows { OnOk result (Grows env.old.types env.new.types) }
{
    let named = named_or_basic(env, gathered)?;
    let ty = env.const_if(gathered.is_const, named)?;
    Ok(ty)
}

/// The type without the `const` among them.
#[tactic(auto, using(crate::proofs::SaidLaws::BaseLaws::named_laws))]
fn named_or_basic(env: &mut Env, gathered: &Gathered) -> Result<TyId, Memory>
    requires { IfSome gathered.now.named (λ t. IsType env.old.types t) }
    ensures made { IfOk result (λ t. shut.named_or_basic gathered.now env.old ≡ Made t env.new) }
    ensures known { IfOk result (λ t. IsType env.new.types t) }
    ensures grows { OnOk result (Grows env.old.types env.new.types) }
{
    match gathered.named {
        Some(ty) => Ok(ty),
        None => {
            if gathered.basics.voids {
                let void = env.void()?;
                Ok(void)
            } else {
                let integer = env.of_kind(gathered.basics.kind())?;
                Ok(integer)
            }
        }
    }
}
