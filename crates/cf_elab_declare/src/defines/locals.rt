ghost use Rattle.std.specs.Prelude.{◌≡◌, OnOk, IfOk, is_some, option_map};
ghost use Rattle.cf_elab_env.specs.Answered.{Agrees};
ghost use Rattle.cf_elab_env.specs.Holds.{Grows, IsType};
ghost use Rattle.cf_elab_declare.specs.Defines.Reached.{local_reached};
ghost use Rattle.cf_elab_declare.specs.Defines.Shut as shut;
ghost use Rattle.cf_elab_declare.specs.Starts.Written.{GivenKnown, written_seen};

use crate::starts::{Written, started};
use cf_base::{Boxed, Memory};
use cf_core::Core;
use cf_elab_env::{Env, Home, Stop};
use cf_elab_initial::{Keeping, Start};
use cf_elab_made::Reached;
use cf_elab_objects::{block_object, declare_in_block};
use cf_types::TyId;

/// The number of a new automatic object, whose name is known from here on; K8 where the block declares the name already (6.7).
#[tactic(auto, using(crate::proofs::DefinesLaws::LocalLaws::begin_laws))]
pub fn begin_local(env: &mut Env, at: u32, name: &[u8], ty: TyId) -> Result<u32, Stop>
    requires { IsType env.old.types ty }
    ensures made { Agrees (shut.begin_local at name.now ty env.old) result env.new }
    ensures types { OnOk result (env.new.types ≡ env.old.types) }
{
    let local = env.new_local(ty)?;
    let object = block_object(ty, Home::Local(local), at);
    declare_in_block(env, name, at, object)?;
    Ok(local)
}

/// The automatic object of this number by what is written.
#[tactic(auto, using(crate::proofs::DefinesLaws::LocalLaws::local_laws))]
pub fn local_defined(
    env: &mut Env,
    at: u32,
    name: &[u8],
    ty: TyId,
    local: u32,
    written: Option<Written>,
) -> Result<Reached, Stop>
    requires known { GivenKnown env.old.types (option_map written_seen written) }
    requires typed { IsType env.old.types ty }
    ensures made { Agrees (shut.local_defined at name.now ty local (option_map written_seen written) env.old) result env.new }
    ensures grows { OnOk result (Grows env.old.types env.new.types) }
{
    let is_written = is_given(&written);
    let start = started(env, &Keeping::Local, name, at, ty, written)?;
    let statement = declared(env, at, ty, local, is_written, start)?;
    Ok(statement)
}

fn is_given(written: &Option<Written>) -> bool
    ensures { result ≡ is_some (option_map written_seen written.now) }
{
    match written {
        Some(_) => true,
        None => false,
    }
}

/// The statement that declares a local by its initialiser.
fn declared(
    env: &Env,
    at: u32,
    ty: TyId,
    local: u32,
    is_written: bool,
    start: Start,
) -> Result<Reached, Memory>
    ensures { IfOk result (λ x. x ≡ local_reached at ty local is_written start) }
{
    let initialises = is_written || !start.is_constant();
    let node = Boxed::new(
        env.alloc(),
        Core::Declare {
            at,
            local,
            ty,
            start: start.into_node(),
        },
    )?;
    Ok(Reached::new(node, initialises))
}
