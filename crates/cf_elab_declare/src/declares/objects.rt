ghost use Rattle.std.specs.Prelude.{◌≡◌, OnOk, option_map};
ghost use Rattle.cf_elab.specs.Operand as operand;
ghost use Rattle.cf_elab_declare.specs.Declares.Begun.{begun_seen};
ghost use Rattle.cf_elab_declare.specs.Declares.Shut as shut;
ghost use Rattle.cf_elab_declare.specs.Defines.Reached.{maybe_reached};
ghost use Rattle.cf_elab_env.specs.Answered.{Agrees, AgreesAs};
ghost use Rattle.cf_elab_env.specs.Holds.{Grows, IsType};
ghost use Rattle.cf_elab_env.specs.Seen.{sort_seen};
ghost use Rattle.cf_elab_objects.specs.Objects.Seen.{says_seen};
ghost use Rattle.cf_elab_declare.specs.Starts.Written.{GivenKnown, written_seen};

use crate::declares::begun::Begun;
use crate::defines::{
    begin_local, begin_static_local, file_defined, local_defined, static_defined,
};
use crate::starts::Written;
use cf_base::{Broken, Rule};
use cf_elab_env::{Env, Sort, Stop};
use cf_elab_made::Reached;
use cf_elab_objects::{Says, check_no_initialiser, declare_linked, variable_link};
use cf_types::TyId;

/// An object is not void, K26, and complete, K30 (3.6, 9.1).
#[tactic(auto, using(crate::proofs::DeclaresLaws::ObjectLaws::checked_laws))]
pub fn check_object(env: &Env, at: u32, ty: TyId) -> Result<(), Stop>
    requires { IsType env.now.types ty }
    ensures { Agrees (shut.check_object at ty env.now) result env.now }
{
    if is_void(env.sort_of(ty)) {
        Err(Stop::Broken(Broken {
            rule: Rule::new(26),
            at,
        }))
    } else if env.is_complete(ty) {
        Ok(())
    } else {
        Err(Stop::Broken(Broken {
            rule: Rule::new(30),
            at,
        }))
    }
}

fn is_void(sort: Sort) -> bool
    ensures { result ≡ operand.is_void (sort_seen sort) }
{
    matches!(sort, Sort::Void)
}

/// An object by how its declaration says it, before its initialiser: one that is declared elsewhere, one of the file, or a static or an automatic
/// object of a block (3.3, 6.7).
#[tactic(auto, using(crate::proofs::DeclaresLaws::BeginLaws::begin_laws))]
pub fn begin(env: &mut Env, in_file: bool, says: &Says) -> Result<Begun, Stop>
    requires { IsType env.old.types says.now.ty }
    ensures made { AgreesAs begun_seen (shut.begin in_file (says_seen says.now) env.old) result env.new }
    ensures types { OnOk result (env.new.types ≡ env.old.types) }
{
    if says.is_extern && !says.defines {
        let link = variable_link(env.alloc(), says.name.as_slice())?;
        let _internal = declare_linked(env, says, link)?;
        Ok(Begun::Declared)
    } else if in_file {
        let link = variable_link(env.alloc(), says.name.as_slice())?;
        let is_internal = declare_linked(env, says, link)?;
        Ok(Begun::InFile(is_internal))
    } else {
        let begun = begin_in_block(env, says)?;
        Ok(begun)
    }
}

/// An object of a block.
#[tactic(auto, using(crate::proofs::DeclaresLaws::BeginLaws::block_laws))]
fn begin_in_block(env: &mut Env, says: &Says) -> Result<Begun, Stop>
    requires { IsType env.old.types says.now.ty }
    ensures made { AgreesAs begun_seen (shut.begin_in_block (says_seen says.now) env.old) result env.new }
    ensures types { OnOk result (env.new.types ≡ env.old.types) }
{
    if says.is_static {
        let names = begin_static_local(env, says.at, says.name.as_slice(), says.ty)?;
        Ok(Begun::Static(names))
    } else {
        let local = begin_local(env, says.at, says.name.as_slice(), says.ty)?;
        Ok(Begun::Local(local))
    }
}

/// The object by what is written, and the statement that its declaration makes, if it makes one. `initial_at` is where an initialiser stands (6.7, 8.4).
#[tactic(auto, using(crate::proofs::DeclaresLaws::FinishLaws::finish_laws))]
pub fn finish(
    env: &mut Env,
    begun: Begun,
    says: &Says,
    initial_at: Option<u32>,
    written: Option<Written>,
) -> Result<Option<Reached>, Stop>
    requires known { GivenKnown env.old.types (option_map written_seen written) }
    requires typed { IsType env.old.types says.now.ty }
    ensures made { AgreesAs maybe_reached (shut.finish (begun_seen begun) (says_seen says.now) initial_at (option_map written_seen written) env.old) result env.new }
    ensures grows { OnOk result (Grows env.old.types env.new.types) }
{
    match begun {
        Begun::Declared => {
            check_no_initialiser(env, initial_at)?;
            Ok(None)
        }
        Begun::InFile(is_internal) => {
            let link = variable_link(env.alloc(), says.name.as_slice())?;
            file_defined(env, says, link, is_internal, written)?;
            Ok(None)
        }
        Begun::Static(names) => {
            let reached = static_defined(
                env,
                says.at,
                says.name.as_slice(),
                says.ty,
                names,
                written,
            )?;
            Ok(reached)
        }
        Begun::Local(local) => {
            let reached = local_defined(
                env,
                says.at,
                says.name.as_slice(),
                says.ty,
                local,
                written,
            )?;
            Ok(Some(reached))
        }
    }
}
