ghost use Rattle.std.specs.Prelude.{◌≡◌, ◌<◌, length, IfOk, OnOk};
ghost use Rattle.std.specs.Option.{ForSome};
ghost use Rattle.cf_elab.specs.Operand.{sort_of};
ghost use Rattle.cf_elab_env.specs.Answered.{Agrees};
ghost use Rattle.cf_elab_env.specs.Holds.{IsType, IsFunctionSort};
ghost use Rattle.cf_elab_functions.specs.Seen.{says_seen, called_seen};
ghost use Rattle.cf_elab_functions.specs.Shut as shut;
ghost use Rattle.cf_elab_objects.specs.Links.Shut as links;

use crate::again::known_entry;
use crate::checks::{check_definition, check_main, check_single};
use crate::entities::{check_set, join};
use crate::entries::entry_of;
use crate::says::{Called, Says};
use cf_base::Name;
use cf_elab_env::{Env, FunctionEntry, Stop};
use cf_elab_objects::{main_link, plain_link};
use cf_types::TyId;

/// A declaration of a function: the form of `main` K11, what else has the name K8, another result K8, linkage K9, a second body K8, a second function of
/// the name K48, and a definition elsewhere K48; and the limit on names. The number of the function (3.3, 8.2.5, 13.1).
#[tactic(auto, using(crate::proofs::DeclareLaws::declare_laws))]
pub fn declare_function(env: &mut Env, int: TyId, says: &Says) -> Result<u32, Stop>
    requires known { IsType env.old.types says.now.ty }
    requires function { IsFunctionSort (sort_of env.old.types says.now.ty) }
    ensures made { Agrees (shut.declare_function int (says_seen says.now) env.old) result env.new }
    ensures types { env.new.types ≡ env.old.types }
{
    check_main(env, int, says)?;
    let here = env.declared_here(says.name.as_slice());
    check_set(env, here, says.at)?;
    let found = entry_of(env, says)?;
    let number = entry_or_new(env, says, found)?;
    join(env, says, number, here)?;
    Ok(number)
}

/// The function that is declared already, or a new one.
#[tactic(auto, using(crate::proofs::DeclareLaws::entry_laws))]
fn entry_or_new(env: &mut Env, says: &Says, found: Option<u32>) -> Result<u32, Stop>
    requires known { IsType env.old.types says.now.ty }
    requires function { IsFunctionSort (sort_of env.old.types says.now.ty) }
    requires inside { ForSome found (λ number. number < length env.old.entries) }
    ensures made { Agrees (shut.entry_or_new (says_seen says.now) found env.old) result env.new }
    ensures number { IfOk result (λ number. number < length env.new.entries) }
    ensures types { env.new.types ≡ env.old.types }
    ensures entities { OnOk result (env.new.entities ≡ env.old.entities) }
{
    match found {
        Some(number) => {
            let known = known_entry(env, says, number)?;
            Ok(known)
        }
        None => {
            let number = new_entry(env, says)?;
            Ok(number)
        }
    }
}

/// A function that no declaration before said: it is the only one of its name and the file defines it, else K48; and its link name, if it has no initialiser,
/// is within the limit on names.
#[tactic(auto, using(crate::proofs::NewLaws::new_laws))]
fn new_entry(env: &mut Env, says: &Says) -> Result<u32, Stop>
    requires known { IsType env.old.types says.now.ty }
    requires function { IsFunctionSort (sort_of env.old.types says.now.ty) }
    ensures made { Agrees (shut.new_entry (says_seen says.now) env.old) result env.new }
    ensures number { IfOk result (λ number. number < length env.new.entries) }
    ensures types { env.new.types ≡ env.old.types }
    ensures entities { OnOk result (env.new.entities ≡ env.old.entities) }
{
    env.holds();
    check_single(env, says)?;
    check_definition(env, says)?;
    let link = said_link(env, says)?;
    let name = Name::from_slice(env.alloc(), says.name.as_slice())?;
    let number = env.add_entry(FunctionEntry {
        name,
        link,
        ty: says.ty,
        at: says.at,
        is_defined: says.defines,
        is_internal: says.is_internal(),
    })?;
    Ok(number)
}

/// Its link name, where it is within the limit on names; where an initialiser stands behind it, which it may not have, it has none.
#[tactic(auto, using(crate::proofs::LinkLaws::said_laws))]
fn said_link(env: &Env, says: &Says) -> Result<Name, Stop>
    requires { IsType env.now.types says.now.ty }
    ensures { Agrees (links.name_or_limit (shut.said_link env.now (says_seen says.now)) env.now) result env.now }
{
    if says.is_initialised {
        Ok(Name::new(env.alloc()))
    } else {
        let link = link_of(env, says)?;
        Ok(link)
    }
}

/// The link name of the function, where it is within the limit on names.
#[tactic(auto, using(crate::proofs::LinkLaws::link_laws))]
fn link_of(env: &Env, says: &Says) -> Result<Name, Stop>
    requires { IsType env.now.types says.now.ty }
    ensures { Agrees (links.name_or_limit (links.function_link env.now (called_seen says.now.name says.now.called) says.now.ty) env.now) result env.now }
{
    match says.called {
        Called::Main => {
            let link = main_link(env)?;
            Ok(link)
        }
        Called::Plain => {
            let link = plain_link(env, says.name.as_slice(), says.ty)?;
            Ok(link)
        }
    }
}
