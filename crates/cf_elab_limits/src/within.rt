ghost use Rattle.std.specs.Prelude.{◌≡◌, nat_le};
ghost use Rattle.cf_elab.specs.Complete.{bytes_of, most_bytes};
ghost use Rattle.cf_elab_env.specs.Answered.{Agrees};
ghost use Rattle.cf_elab_env.specs.Holds.{IsType};
ghost use Rattle.cf_elab_limits.specs.Shut as shut;

use crate::bytes::{MOST_BYTES, accepted_bytes};
use cf_base::{Bound, Limit};
use cf_elab_env::{Env, Stop};
use cf_types::TyId;

/// Each type that was made since there were so many is no larger than the limit on sizes.
pub fn check_types(env: &Env, count: usize) -> Result<(), Stop>
    ensures { Agrees (shut.types_within count env.now) result env.now }
{
    for number in count..env.types().count() {
        check_number(env, number)?;
    }
    Ok(())
}

/// The type of this number is no larger than the limit on sizes.
fn check_number(env: &Env, number: usize) -> Result<(), Stop>
    requires { IsType env.now.types number }
    ensures { Agrees (shut.type_within number env.now) result env.now }
{
    let _types = env.types();
    let ty = TyId::new(number as u32);
    check_type(env, ty)
}

/// The type is no larger than the limit on sizes.
#[tactic(auto, using(crate::proofs::WithinLaws::type_laws))]
pub fn check_type(env: &Env, ty: TyId) -> Result<(), Stop>
    requires { IsType env.now.types ty }
    ensures { Agrees (shut.type_within ty env.now) result env.now }
{
    if is_within(env, ty) {
        Ok(())
    } else {
        Err(Stop::Passed(Limit {
            bound: Bound::Size,
            most: MOST_BYTES,
        }))
    }
}

#[tactic(auto, using(crate::proofs::WithinLaws::within_laws))]
fn is_within(env: &Env, ty: TyId) -> bool
    requires { IsType env.now.types ty }
    ensures { result ≡ nat_le (bytes_of env.now ty) most_bytes }
{
    let _classes = env.classes();
    accepted_bytes(env.types(), ty).is_some()
}
