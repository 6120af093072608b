ghost use Rattle.std.specs.Prelude.{◌≡◌, Some, OnOk, IfOk, option_map};
ghost use Rattle.cf_elab.specs.Answer.{Made};
ghost use Rattle.cf_elab_env.specs.Answered.{Agrees, AgreesAs};
ghost use Rattle.cf_elab_env.specs.Holds.{Grows, IsType};
ghost use Rattle.cf_elab_declare.specs.Defines.Reached.{maybe_reached, names_at, names_seen, once};
ghost use Rattle.cf_elab_declare.specs.Defines.Shut as shut;
ghost use Rattle.cf_elab_declare.specs.Starts.Written.{GivenKnown, written_seen};

use crate::starts::{Written, check_constant, start_place, started};
use cf_base::{Boxed, Items, Memory, Name};
use cf_core::{Core, CoreStatic};
use cf_elab_env::{Env, Home, Stop};
use cf_elab_initial::{Keeping, Start};
use cf_elab_made::Reached;
use cf_elab_objects::{block_object, check_link, declare_in_block, local_static_name, static_of};
use cf_types::TyId;
use std::alloc::Global;

/// A static object of a block by its link name, and the link name of the function that it stands in.
#[derive(Debug, Drop)]
pub struct StaticLocal {
    pub link: Name,
    pub owner: Name,
}

/// A new static object of a block, whose name is known from here on; K8 where the block declares the name already (6.7).
#[tactic(auto, using(crate::proofs::DefinesLaws::StaticLaws::function_laws))]
pub fn begin_static_local(
    env: &mut Env,
    at: u32,
    name: &[u8],
    ty: TyId,
) -> Result<StaticLocal, Stop>
    requires { IsType env.old.types ty }
    ensures made { AgreesAs names_seen (shut.begin_static_local at name.now ty env.old) result env.new }
    ensures types { OnOk result (env.new.types ≡ env.old.types) }
{
    let names = new_names(env, name)?;
    begin_static(env, at, name, ty, &names.link)?;
    Ok(names)
}

/// The link names of a new static object of the function at hand.
fn new_names(env: &Env, name: &[u8]) -> Result<StaticLocal, Memory>
    ensures { IfOk result (λ names. names_seen names ≡ names_at env.now name.now) }
{
    let alloc = env.alloc();
    let owner = Items::from_slice(alloc, env.hand_link().as_slice())?;
    let link = local_static_name(alloc, name, env.static_count(), owner.as_slice())?;
    Ok(StaticLocal { link, owner })
}

/// The same under this link name.
#[tactic(auto, using(crate::proofs::DefinesLaws::StaticLaws::begin_laws))]
fn begin_static(env: &mut Env, at: u32, name: &[u8], ty: TyId, link: &Name) -> Result<(), Stop>
    requires { IsType env.old.types ty }
    ensures made { Agrees (shut.begin_static at name.now ty link.now env.old) result env.new }
    ensures types { OnOk result (env.new.types ≡ env.old.types) }
{
    env.count_static()?;
    let home = Items::from_slice(env.alloc(), link.as_slice())?;
    let object = block_object(ty, Home::Static(home), at);
    declare_in_block(env, name, at, object)?;
    Ok(())
}

/// The static object by what is written, and where its initialiser is not constant the statement that initialises it when it is reached first. Such
/// an initialiser is K48 where none is built; and then the limit on names (6.7).
#[tactic(auto, using(crate::proofs::DefinesLaws::StaticLaws::defined_laws))]
pub fn static_defined(
    env: &mut Env,
    at: u32,
    name: &[u8],
    ty: TyId,
    names: StaticLocal,
    written: Option<Written>,
) -> Result<Option<Reached>, Stop>
    requires known { GivenKnown env.old.types (option_map written_seen written) }
    requires typed { IsType env.old.types ty }
    ensures made { AgreesAs maybe_reached (shut.static_defined at name.now ty (names_seen names) (option_map written_seen written) env.old) result env.new }
    ensures grows { OnOk result (Grows env.old.types env.new.types) }
{
    let place = start_place(&written, at);
    let keeping = keeping_of(env.alloc(), &names, at)?;
    let start = started(env, &keeping, name, at, ty, written)?;
    check_constant(env, place, &start)?;
    check_link(env, names.link.as_slice())?;
    let statement = added(env, at, ty, names, start)?;
    Ok(statement)
}

/// What keeps a temporary that it binds, if it is a reference.
fn keeping_of(alloc: Global, names: &StaticLocal, at: u32) -> Result<Keeping, Memory>
    ensures { IfOk result (λ k. k ≡ Keeping.Static names.now.link (Some names.now.owner) at) }
{
    Ok(Keeping::Static {
        reference: Items::from_slice(alloc, names.link.as_slice())?,
        owner: Some(Items::from_slice(alloc, names.owner.as_slice())?),
        at,
    })
}

/// The static object with its initialiser, which stands in its function where it is not constant.
#[tactic(auto, using(crate::proofs::DefinesLaws::StaticLaws::added_laws))]
fn added(
    env: &mut Env,
    at: u32,
    ty: TyId,
    names: StaticLocal,
    start: Start,
) -> Result<Option<Reached>, Memory>
    ensures made { IfOk result (λ x. shut.added at ty (names_seen names) start env.old ≡ Made (maybe_reached x) env.new) }
    ensures types { OnOk result (env.new.types ≡ env.old.types) }
{
    if start.is_constant() {
        let object = static_of(
            names.link,
            ty,
            start.into_node(),
            Some(names.owner),
            true,
            true,
        );
        env.add_static(object)?;
        Ok(None)
    } else {
        let link = Items::from_slice(env.alloc(), names.link.as_slice())?;
        let statement = once_reached(env, at, link, start)?;
        let blank = Boxed::new(env.alloc(), Core::Blank { at })?;
        let object = static_of(names.link, ty, blank, Some(names.owner), false, true);
        env.add_static(object)?;
        Ok(Some(statement))
    }
}

/// The statement that initialises a static object once.
fn once_reached(env: &Env, at: u32, link: Name, start: Start) -> Result<Reached, Memory>
    ensures { IfOk result (λ x. x ≡ once at link start) }
{
    let node = Boxed::new(
        env.alloc(),
        Core::Once {
            at,
            name: link,
            start: start.into_node(),
        },
    )?;
    Ok(Reached::new(node, false))
}
