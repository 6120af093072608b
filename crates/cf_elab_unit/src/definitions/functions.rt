//! The functions that a file defines, in its core.

ghost use Rattle.std.specs.Prelude.{◌≡◌, false, length, drop, IfOk};
ghost use Rattle.cf_elab.specs.Definition as definition;

use crate::definitions::parameters::own_types;
use cf_base::{Boxed, Items, Memory, Name};
use cf_core::{Core, CoreFn, Role};
use cf_elab_env::FunctionEntry;
use cf_elab_shape::Parameter;
use cf_types::TyId;
use std::alloc::Global;

/// What the core says of a function beside its result and its body.
#[derive(Drop)]
pub(crate) struct Head {
    /// Its link name.
    pub name: Name,
    /// Whether that is local to the file (3.3).
    pub is_internal: bool,
    pub params: Items<TyId>,
    /// The types of its locals, by their numbers behind the parameters.
    pub locals: Items<TyId>,
}

/// That of the function of this entry with these parameters; `objects` are the types of its parameters and locals.
pub(crate) fn head_of(
    alloc: Global,
    entry: &FunctionEntry,
    parameters: &[Parameter],
    objects: &[TyId],
) -> Result<Head, Memory>
    ensures name { IfOk result (λ h. h.name ≡ entry.now.link) }
    ensures internal { IfOk result (λ h. h.is_internal ≡ entry.now.is_internal) }
    ensures params { IfOk result (λ h. h.params ≡ definition.own_types parameters.now) }
    ensures locals { IfOk result (λ h. h.locals ≡ drop (length parameters.now) objects.now) }
{
    Ok(Head {
        name: Name::from_slice(alloc, entry.link.as_slice())?,
        is_internal: entry.is_internal,
        params: own_types(alloc, parameters)?,
        locals: locals_behind(alloc, parameters.len(), objects)?,
    })
}

/// The locals behind so many parameters.
fn locals_behind(alloc: Global, count: usize, objects: &[TyId]) -> Result<Items<TyId>, Memory>
    ensures { IfOk result (λ ts. ts ≡ drop count objects.now) }
{
    match objects.get(count..) {
        Some(rest) => Items::from_slice(alloc, rest),
        None => Ok(Items::new(alloc)),
    }
}

/// A function that is no member and stands in this file alone.
pub(crate) fn core_function(body: Boxed<Core>, head: Head, returned: TyId) -> CoreFn
    ensures { result ≡ record { name = head.name; role = Role.Plain; result = returned; params = head.params; locals = head.locals; body = body; is_shared = false; is_local = head.is_internal } }
{
    CoreFn {
        name: head.name,
        role: Role::Plain,
        result: returned,
        params: head.params,
        locals: head.locals,
        body: body.into_inner(),
        is_shared: false,
        is_local: head.is_internal,
    }
}
