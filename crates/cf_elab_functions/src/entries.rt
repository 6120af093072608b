ghost use Rattle.std.specs.Prelude.{◌≡◌, ◌<◌, length, All, IfOk};
ghost use Rattle.std.specs.Option.{ForSome};
ghost use Rattle.cf_elab_env.specs.Holds.{IsType};
ghost use Rattle.cf_elab_functions.specs.Entries.{first_of};
ghost use Rattle.cf_elab_functions.specs.Seen.{says_seen};
ghost use Rattle.cf_elab_functions.specs.Shut as shut;

use crate::function_types::{are_same, params_of};
use crate::says::Says;
use cf_base::Memory;
use cf_elab_env::{Env, FunctionEntry};

/// The number of the function of this name with these parameters, if it is declared already (8.2.5, 13.1).
#[tactic(auto, using(crate::proofs::EntryLaws::entry_laws))]
pub(crate) fn entry_of(env: &Env, says: &Says) -> Result<Option<u32>, Memory>
    requires { IsType env.now.types says.now.ty }
    ensures value { IfOk result (λ found. found ≡ shut.entry_of env.now (says_seen says.now)) }
    ensures known { IfOk result (λ found. ForSome found (λ number. number < length env.now.entries)) }
{
    let numbers = env.entries_named(says.name.as_slice())?;
    Ok(first_of(env, says, numbers.as_slice()))
}

/// The first of these functions that has those parameters.
#[tactic(auto, using(crate::proofs::EntryLaws::first_laws))]
fn first_of(env: &Env, says: &Says, numbers: &[u32]) -> Option<u32>
    requires known { IsType env.now.types says.now.ty }
    requires inside { All (λ number. number < length env.now.entries) numbers.now }
    ensures value { result ≡ first_of env.now.types env.now.entries says.now.ty numbers.now }
    ensures known { ForSome result (λ number. number < length env.now.entries) }
{
    for number in numbers {
        if have_same(env, says, env.entry(*number)) {
            return Some(*number);
        }
    }
    None
}

/// Whether it has the same parameters.
#[tactic(auto, using(crate::proofs::EntryLaws::same_laws))]
fn have_same(env: &Env, says: &Says, entry: &FunctionEntry) -> bool
    requires known { IsType env.now.types says.now.ty }
    requires entry_known { IsType env.now.types entry.now.type }
    ensures { result ≡ shut.same_params env.now.types says.now.ty entry.now.type }
{
    are_same(params_of(env, says.ty), params_of(env, entry.ty))
}
