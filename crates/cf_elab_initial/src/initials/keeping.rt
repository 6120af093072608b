ghost use Rattle.std.specs.Prelude.{◌≡◌, None, IfOk, OnOk};
ghost use Rattle.cf_elab.specs.Answer.{Made};
ghost use Rattle.cf_elab.specs.Initial as initials;
ghost use Rattle.cf_elab.specs.Objects.{local_keeper, static_keeper};
ghost use Rattle.cf_elab_env.specs.Answered.{Agrees};
ghost use Rattle.cf_elab_env.specs.Holds.{Grows, IsType};
ghost use Rattle.cf_elab_initial.specs.Initials.Keeping.{keeping_seen, kept_start, temporary_of};
ghost use Rattle.cf_elab_initial.specs.Initials.Shut as shut;

use crate::initials::start::{Start, is_constant_value};
use cf_base::{Boxed, Items, Memory, Name};
use cf_core::{Core, CoreStatic, Holder};
use cf_elab_env::{Env, Stop, Value};
use cf_elab_objects::{check_link, temporary_name};
use cf_types::TyId;
use std::alloc::Global;

/// How long a temporary lives that a reference binds (12.2).
#[derive(Debug, Drop)]
pub enum Keeping {
    /// As long as the full expression.
    FullExpression,
    /// As long as a local reference: it is a local of its own.
    Local,
    /// As long as a static reference of this link name: it is a static object of its own, in the function of the owner's link name or, without
    /// one, in the file. `at` is the byte place of the reference's name.
    Static {
        reference: Name,
        owner: Option<Name>,
        at: u32,
    },
}

/// A reference to a temporary of this type that the value initialises. A static one whose link name is too long passes the limit on names.
#[tactic(auto, using(crate::proofs::InitialsLaws::KeepingLaws::held_laws))]
pub(crate) fn held(
    env: &mut Env,
    keeping: &Keeping,
    at: u32,
    to: TyId,
    value: Value,
) -> Result<Start, Stop>
    requires { IsType env.old.types to }
    ensures made { Agrees (shut.held (keeping_seen keeping.now) at to value env.old) result env.new }
    ensures number { IfOk result (λ s. s.number ≡ None) }
    ensures grows { OnOk result (Grows env.old.types env.new.types) }
{
    match keeping {
        Keeping::FullExpression => {
            let start = in_expression(env, at, to, value)?;
            Ok(start)
        }
        Keeping::Local => {
            let start = in_local(env, at, to, value)?;
            Ok(start)
        }
        Keeping::Static {
            reference,
            owner,
            at: place,
        } => {
            let start = in_static(env, reference, owner, *place, at, to, value)?;
            Ok(start)
        }
    }
}

/// A temporary of the full expression.
fn in_expression(env: &Env, at: u32, to: TyId, value: Value) -> Result<Start, Memory>
    ensures { IfOk result (λ s. s ≡ initials.keeps at to initials.full_expression value) }
{
    let start = value.into_node();
    let operand = Boxed::new(env.alloc(), Core::Temporary { at, ty: to, start })?;
    let node = Boxed::new(
        env.alloc(),
        Core::Bind {
            at,
            holder: Holder::NoTemporary,
            operand,
        },
    )?;
    Ok(Start::fixed(node, false))
}

/// A temporary that is kept so.
fn kept(env: &Env, holder: Holder, at: u32, value: Value) -> Result<Start, Memory>
    ensures { IfOk result (λ s. s ≡ kept_start at holder value) }
{
    let is_constant = is_constant_value(&value);
    let operand = value.into_node();
    let node = Boxed::new(
        env.alloc(),
        Core::Bind {
            at,
            holder,
            operand,
        },
    )?;
    Ok(Start::fixed(node, is_constant))
}

/// A temporary that is a new local.
#[tactic(auto, using(crate::proofs::InitialsLaws::KeepingLaws::local_laws))]
fn in_local(env: &mut Env, at: u32, to: TyId, value: Value) -> Result<Start, Memory>
    requires { IsType env.old.types to }
    ensures made { IfOk result (λ s. shut.held local_keeper at to value env.old ≡ Made s env.new) }
    ensures number { IfOk result (λ s. s.number ≡ None) }
    ensures types { OnOk result (env.new.types ≡ env.old.types) }
{
    let local = env.new_local(to)?;
    let start = kept(env, Holder::LocalTemporary { local, ty: to }, at, value)?;
    Ok(start)
}

/// A temporary that is a new static object, beside the reference of this link name. Its own link name may pass the limit on names.
#[tactic(auto, using(crate::proofs::InitialsLaws::KeepingLaws::static_laws))]
fn in_static(
    env: &mut Env,
    reference: &Name,
    owner: &Option<Name>,
    place: u32,
    at: u32,
    to: TyId,
    value: Value,
) -> Result<Start, Stop>
    requires { IsType env.old.types to }
    ensures made { Agrees (shut.held (static_keeper reference.now owner.now place) at to value env.old) result env.new }
    ensures number { IfOk result (λ s. s.number ≡ None) }
    ensures types { OnOk result (env.new.types ≡ env.old.types) }
{
    let name = temporary_name(env.alloc(), reference.as_slice())?;
    check_link(env, name.as_slice())?;
    let object = temporary(env.alloc(), &name, owner, place, to)?;
    env.add_static(object)?;
    let start = kept(env, Holder::StaticTemporary(name), at, value)?;
    Ok(start)
}

/// The static object of this link name that is the temporary of a static reference. The reference's initialiser builds it.
fn temporary(
    alloc: Global,
    name: &Name,
    owner: &Option<Name>,
    at: u32,
    ty: TyId,
) -> Result<CoreStatic, Memory>
    ensures { IfOk result (λ x. x ≡ temporary_of name.now owner.now at ty) }
{
    Ok(CoreStatic {
        name: Items::from_slice(alloc, name.as_slice())?,
        ty,
        start: Core::Blank { at },
        owner: copied(alloc, owner)?,
        is_constant: true,
        is_shared: false,
        is_local: true,
    })
}

/// A copy of a name, if there is one.
fn copied(alloc: Global, name: &Option<Name>) -> Result<Option<Name>, Memory>
    ensures { IfOk result (λ copy. copy ≡ name.now) }
{
    match name {
        Some(name) => Ok(Some(Items::from_slice(alloc, name.as_slice())?)),
        None => Ok(None),
    }
}
