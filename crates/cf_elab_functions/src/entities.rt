ghost use Rattle.std.specs.Prelude.{◌≡◌, ◌<◌, length, nat_eq, IfOk};
ghost use Rattle.std.specs.List.{list_any};
ghost use Rattle.std.specs.Option.{ForSome};
ghost use Rattle.cf_elab_env.specs.Answered.{Agrees};
ghost use Rattle.cf_elab_functions.specs.Seen.{says_seen};
ghost use Rattle.cf_elab_functions.specs.Shut as shut;

use crate::says::Says;
use cf_base::{Items, Memory};
use cf_elab_arith::broken;
use cf_elab_env::{Entity, Env, Stop};
use std::alloc::Global;

/// The innermost scope has nothing, or functions, by the name: by the number of its entity there; else K8 (3.2).
#[tactic(auto, using(crate::proofs::EntityLaws::set_laws))]
pub(crate) fn check_set(env: &Env, here: Option<u32>, at: u32) -> Result<(), Stop>
    requires { ForSome here (λ number. number < length env.now.entities) }
    ensures { Agrees (shut.need_set here at env.now) result env.now }
{
    if is_function_set(env, here) {
        Ok(())
    } else {
        Err(Stop::Broken(broken(8, at)))
    }
}

#[tactic(auto, using(crate::proofs::EntityLaws::entity_laws))]
fn is_function_set(env: &Env, here: Option<u32>) -> bool
    requires { ForSome here (λ number. number < length env.now.entities) }
    ensures { result ≡ shut.is_function_set env.now here }
{
    match here {
        Some(number) => matches!(env.entity(number), Entity::Functions(_)),
        None => true,
    }
}

/// The innermost scope has the function by its name: as one more, where the name has others there; else K8.
#[tactic(auto, using(crate::proofs::JoinLaws::join_laws))]
pub(crate) fn join(env: &mut Env, says: &Says, number: u32, here: Option<u32>) -> Result<(), Stop>
    requires known { number < length env.old.entries }
    requires inside { ForSome here (λ place. place < length env.old.entities) }
    ensures made { Agrees (shut.entity_joined (says_seen says.now) number here env.old) result env.new }
    ensures types { env.new.types ≡ env.old.types }
{
    match here {
        Some(place) => {
            join_at(env, says, number, place)?;
            Ok(())
        }
        None => {
            let numbers = Items::from_slice(env.alloc(), &[number])?;
            env.declare(says.name.as_slice(), Entity::Functions(numbers))?;
            Ok(())
        }
    }
}

/// One more function of a name.
#[tactic(auto, using(crate::proofs::JoinLaws::at_laws))]
fn join_at(env: &mut Env, says: &Says, number: u32, place: u32) -> Result<(), Stop>
    requires known { number < length env.old.entries }
    requires inside { place < length env.old.entities }
    ensures made { Agrees (shut.join_at (says_seen says.now) number place env.old) result env.new }
    ensures types { env.new.types ≡ env.old.types }
{
    match env.entity(place) {
        Entity::Functions(numbers) => {
            let joined = joined(env.alloc(), number, numbers.as_slice())?;
            env.redeclare(place, Entity::Functions(joined));
            Ok(())
        }
        _ => Err(Stop::Broken(broken(8, says.at))),
    }
}

/// These numbers with one more, unless it is among them.
#[tactic(auto, using(crate::proofs::JoinLaws::joined_laws))]
fn joined(alloc: Global, number: u32, numbers: &[u32]) -> Result<Items<u32>, Memory>
    ensures { IfOk result (λ all. all ≡ shut.joins number numbers.now) }
{
    let mut all = Items::from_slice(alloc, numbers)?;
    if !is_among(number, numbers) {
        all.push(number)?;
    }
    Ok(all)
}

/// Whether it is one of these numbers.
fn is_among(number: u32, numbers: &[u32]) -> bool
    ensures { result ≡ list_any (nat_eq number) numbers.now }
{
    numbers.iter().any(|other| number == *other)
}
