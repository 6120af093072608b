ghost use Rattle.std.specs.Prelude.{◌≡◌, ◌<◌, length, All, IfSome, IfOk, OnOk};
ghost use Rattle.std.specs.Option.{option_map};
ghost use Rattle.cf_elab_env.specs.Answered.{Agrees};
ghost use Rattle.cf_elab_env.specs.Holds.{IsEntity, IsType, Grows};
ghost use Rattle.cf_elab_specifiers.specs.Named.Named.{name_seen, first_type as first_found};
ghost use Rattle.cf_elab_specifiers.specs.Named.Shut as shut;

use crate::named::refusal::no_type;
use crate::named::type_name::{TypeName, type_name, type_of_name};
use cf_elab_env::{Env, Stop};
use cf_types::TyId;

/// The type of this name behind `enum`: what is no type does not hide it. K10 where there is none (3.2).
#[tactic(auto, using(crate::proofs::NamedLaws::KeyLaws::keyed_laws))]
pub(crate) fn keyed_named(env: &mut Env, at: u32, name: &[u8]) -> Result<TyId, Stop>
    ensures made { Agrees (shut.keyed_named at name.now env.old) result env.new }
    ensures known { IfOk result (λ t. IsType env.new.types t) }
    ensures grows { OnOk result (Grows env.old.types env.new.types) }
{
    env.holds();
    let numbers = env.find_all(name)?;
    match first_type(env, numbers.as_slice()) {
        Some(found) => {
            let ty = type_of_name(env, found)?;
            Ok(ty)
        }
        None => Err(no_type(at)),
    }
}

/// The first of these entities that is a type.
#[tactic(auto, using(crate::proofs::NamedLaws::KeyLaws::first_laws))]
fn first_type(env: &Env, numbers: &[u32]) -> Option<TypeName>
    requires { All (λ number. number < length env.now.entities) numbers.now }
    ensures value { option_map name_seen result ≡ first_found env.now numbers.now }
    ensures known { IfSome result (λ name. IsEntity env.now.types (length env.now.entries) (name_seen name)) }
{
    match numbers.split_first() {
        None => None,
        Some((number, rest)) => match type_name(env, env.entity(*number)) {
            Some(name) => Some(name),
            None => first_type(env, rest),
        },
    }
}
