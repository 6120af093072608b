//! What a definition asks of its specifiers (7.1).

ghost use Rattle.std.specs.Prelude.{◌≡◌};
ghost use Rattle.cf_elab_env.specs.Answered.{Agrees};
ghost use Rattle.cf_elab_unit.specs.Definitions.Shut as shut;

use cf_base::{Broken, Rule};
use cf_elab_env::{Env, Stop};
use cf_elab_specifiers::{Gathered, conflict, earlier};

/// The specifiers of what is defined in a file do not conflict, where it is a function or not, and `typedef` is not among them; else K24 at the first in the
/// text that is at fault. The declarator stands at this byte place.
#[tactic(auto, using(crate::proofs::DefinitionsLaws::CheckLaws::conflict_laws))]
pub(crate) fn check_conflict(
    env: &Env,
    is_function: bool,
    at: u32,
    gathered: &Gathered,
) -> Result<(), Stop>
    ensures { Agrees (shut.no_conflict is_function at gathered.now env.now) result env.now }
{
    let _env = env;
    match definition_conflict(is_function, at, gathered) {
        None => Ok(()),
        Some(place) => Err(Stop::Broken(Broken {
            rule: Rule::new(24),
            at: place,
        })),
    }
}

/// The place of that first specifier.
#[tactic(auto, unfolding(crate::specs::Definitions::Shut::definition_conflict))]
fn definition_conflict(is_function: bool, at: u32, gathered: &Gathered) -> Option<u32>
    ensures { result ≡ shut.definition_conflict is_function at gathered.now }
{
    let alias = if gathered.is_typedef() {
        gathered.storage_at()
    } else {
        None
    };
    earlier(conflict(true, is_function, at, gathered), alias)
}
