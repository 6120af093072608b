ghost use Rattle.std.specs.Prelude.{◌≡◌, None, IfOk, OnOk, option_map};
ghost use Rattle.cf_elab.specs.Answer.{Made};
ghost use Rattle.cf_elab.specs.Objects as objects;
ghost use Rattle.cf_elab_env.specs.Answered.{Agrees};
ghost use Rattle.cf_elab_env.specs.Holds.{Grows, IsType};
ghost use Rattle.cf_elab_declare.specs.Defines.Shut as shut;
ghost use Rattle.cf_elab_objects.specs.Objects.Seen.{says_seen};
ghost use Rattle.cf_elab_declare.specs.Starts.Written.{GivenKnown, written_seen};

use crate::starts::{Written, check_constant, start_place, started};
use cf_base::{Items, Memory, Name};
use cf_elab_env::{Env, Stop};
use cf_elab_initial::{Keeping, Start};
use cf_elab_objects::{Says, static_of};
use std::alloc::Global;

/// An object of the file by what is written, behind its declaration, which gave its link name and whether its name is local to the file. An initialiser
/// that is not constant is K48 where none is built (8.4).
#[tactic(auto, using(crate::proofs::DefinesLaws::FileLaws::file_laws))]
pub fn file_defined(
    env: &mut Env,
    says: &Says,
    link: Name,
    is_internal: bool,
    written: Option<Written>,
) -> Result<(), Stop>
    requires known { GivenKnown env.old.types (option_map written_seen written) }
    requires typed { IsType env.old.types says.now.ty }
    requires link { link ≡ objects.variable_link says.now.name }
    ensures made { Agrees (shut.file_defined (says_seen says.now) is_internal (option_map written_seen written) env.old) result env.new }
    ensures grows { OnOk result (Grows env.old.types env.new.types) }
{
    let place = start_place(&written, says.at);
    let keeping = keeping_of(env.alloc(), &link, says)?;
    let start = started(
        env,
        &keeping,
        says.name.as_slice(),
        says.at,
        says.ty,
        written,
    )?;
    check_constant(env, place, &start)?;
    added(env, says, link, is_internal, start)?;
    Ok(())
}

/// What keeps a temporary that the object binds, if it is a reference.
fn keeping_of(alloc: Global, link: &Name, says: &Says) -> Result<Keeping, Memory>
    requires { link.now ≡ objects.variable_link says.now.name }
    ensures { IfOk result (λ k. k ≡ Keeping.Static (objects.variable_link says.now.name) None says.now.at) }
{
    Ok(Keeping::Static {
        reference: Items::from_slice(alloc, link.as_slice())?,
        owner: None,
        at: says.at,
    })
}

/// The object with its initialiser.
#[tactic(auto, using(crate::proofs::DefinesLaws::FileLaws::added_laws))]
fn added(
    env: &mut Env,
    says: &Says,
    link: Name,
    is_internal: bool,
    start: Start,
) -> Result<(), Memory>
    requires { link ≡ objects.variable_link says.now.name }
    ensures made { OnOk result (shut.file_added (says_seen says.now) is_internal start env.old ≡ Made tt env.new) }
    ensures types { OnOk result (env.new.types ≡ env.old.types) }
{
    let is_constant = start.is_constant();
    let object = static_of(
        link,
        says.ty,
        start.into_node(),
        None,
        is_constant,
        is_internal,
    );
    env.add_static(object)?;
    Ok(())
}
