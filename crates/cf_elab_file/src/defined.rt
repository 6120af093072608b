ghost use Rattle.std.specs.Prelude.{◌≡◌, map};
ghost use Rattle.cf_elab.specs.File as file;
ghost use Rattle.cf_elab_env.specs.Answered.{Agrees};
ghost use Rattle.cf_elab_env.specs.Seen.{entity_seen};
ghost use Rattle.cf_elab_file.specs.Shut as shut;

use crate::known::is_library;
use cf_base::{Broken, Rule};
use cf_elab_env::{Entity, Env, FunctionEntry, Stop};
use cf_elab_specifiers::earlier;

/// At the end of a file each function and each object that it declares is defined in it, while definitions in other files are not built; else K48 at the
/// first in the text that is not, where it was first declared.
#[tactic(auto, using(crate::proofs::DefinedLaws::defined_laws))]
pub fn check_all_defined(env: &Env) -> Result<(), Stop>
    ensures { Agrees (shut.all_defined env.now) result env.now }
{
    if env.extent().elsewhere {
        return Ok(());
    }
    match undefined_at(env) {
        None => Ok(()),
        Some(at) => Err(Stop::Broken(Broken {
            rule: Rule::new(48),
            at,
        })),
    }
}

/// The byte place of the first function or object that is declared and not defined.
fn undefined_at(env: &Env) -> Option<u32>
    ensures { result ≡ file.undefined_at env.now }
{
    earlier(first_undefined(env.entries()), first_object(env.entities()))
}

/// The byte place of the first of these that is an object which is only declared.
fn first_object(entities: &[Entity]) -> Option<u32>
    ensures { result ≡ file.first_object (map entity_seen entities.now) }
{
    for entity in entities {
        if let Some(at) = undefined_object(entity) {
            return Some(at);
        }
    }
    None
}

fn undefined_object(entity: &Entity) -> Option<u32>
    ensures { result ≡ file.undefined_object (entity_seen entity.now) }
{
    match entity {
        Entity::Object(object) => {
            if object.is_defined {
                None
            } else {
                Some(object.at)
            }
        }
        _ => None,
    }
}

/// The byte place of the first of these functions that is not defined and is none of the library.
fn first_undefined(entries: &[FunctionEntry]) -> Option<u32>
    ensures { result ≡ file.first_undefined entries.now }
{
    for entry in entries {
        if !(entry.is_defined || is_library(entry.link.as_slice())) {
            return Some(entry.at);
        }
    }
    None
}
