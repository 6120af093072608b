ghost use Rattle.std.specs.Prelude.{◌≡◌, All, IfOk, OnOk};
ghost use Rattle.cf_elab_cast.specs.Given.{given_by};
ghost use Rattle.cf_elab_cast.specs.Shut as shut;
ghost use Rattle.cf_elab_env.specs.Answered.{Agrees};
ghost use Rattle.cf_elab_env.specs.Holds.{Known, Grows, IsType};

use crate::casts::{cast, cast_by};
use crate::form::zero_form_at;
use cf_base::Items;
use cf_elab_arith::broken;
use cf_elab_env::{Env, Stop, Value};
use cf_types::TyId;

/// The arguments behind a type.
#[derive(Drop)]
enum Given {
    None,
    One(Value),
    Several,
}

/// `T(args)` of a type that is no class: one argument as a cast, none gives 0, and several are too many, K15 (5.2.3).
#[tactic(auto, using(crate::proofs::ArgumentLaws::arguments_laws))]
pub fn from_arguments(env: &mut Env, at: u32, ty: TyId, values: Items<Value>) -> Result<Value, Stop>
    requires known { All (λ v. Known env.old.types v) values }
    requires typed { IsType env.old.types ty }
    ensures made { Agrees (shut.from_arguments at ty values env.old) result env.new }
    ensures known { IfOk result (λ v. Known env.new.types v) }
    ensures grows { OnOk result (Grows env.old.types env.new.types) }
{
    match given_by(values) {
        Given::None => {
            let zero = zero_value(env, at, ty)?;
            Ok(zero)
        }
        Given::One(value) => {
            let cast = cast(env, at, ty, value)?;
            Ok(cast)
        }
        Given::Several => Err(Stop::Broken(broken(15, at))),
    }
}

fn given_by(values: Items<Value>) -> Given
    ensures { result ≡ given_by values }
{
    let mut values = values.into_vec();
    match values.pop() {
        None => Given::None,
        Some(value) => {
            if values.is_empty() {
                Given::One(value)
            } else {
                Given::Several
            }
        }
    }
}

/// `T()`: a zero of the type, which is no class; of a type that has none K17.
#[tactic(auto, using(crate::proofs::ArgumentLaws::zero_laws))]
pub fn zero_value(env: &mut Env, at: u32, ty: TyId) -> Result<Value, Stop>
    requires { IsType env.old.types ty }
    ensures made { Agrees (shut.zero_value at ty env.old) result env.new }
    ensures known { IfOk result (λ v. Known env.new.types v) }
    ensures grows { OnOk result (Grows env.old.types env.new.types) }
{
    env.holds();
    let bare = env.bare(ty);
    let zero = Value::constant(env.alloc(), at, 0, ty)?;
    let form = zero_form_at(env, bare);
    let value = cast_by(env, at, bare, form, zero)?;
    Ok(value)
}
