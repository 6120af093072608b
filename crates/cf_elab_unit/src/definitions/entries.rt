//! The function that a definition declared.

ghost use Rattle.std.specs.Prelude.{◌≡◌, [], IfOk, slice_get};
ghost use Rattle.std.specs.Option.{ForSome};
ghost use Rattle.cf_elab_env.specs.Holds.{IsEntry};

use cf_base::{Memory, Name};
use cf_elab_env::{Env, FunctionEntry};
use std::alloc::Global;

/// A copy of the function of this number, if there is one.
#[tactic(auto, using(crate::proofs::DefinitionsLaws::EntryLaws::entry_laws))]
pub(crate) fn entry_at(env: &Env, number: u32) -> Result<Option<FunctionEntry>, Memory>
    ensures value { IfOk result (λ f. f ≡ slice_get env.now.entries number) }
    ensures known { IfOk result (λ f. ForSome f (λ f. IsEntry env.now.types f)) }
{
    match env.entries().get(number as usize) {
        None => Ok(None),
        Some(entry) => {
            let copied = copy(env.alloc(), entry)?;
            Ok(Some(copied))
        }
    }
}

fn copy(alloc: Global, entry: &FunctionEntry) -> Result<FunctionEntry, Memory>
    ensures { IfOk result (λ f. f ≡ record entry.now { defaults = [] }) }
{
    Ok(FunctionEntry {
        name: Name::from_slice(alloc, entry.name.as_slice())?,
        link: Name::from_slice(alloc, entry.link.as_slice())?,
        ty: entry.ty,
        at: entry.at,
        is_defined: entry.is_defined,
        is_internal: entry.is_internal,
    })
}
