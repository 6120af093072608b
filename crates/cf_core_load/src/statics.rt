//! Static objects (3.5).

ghost use Rattle.std.specs.Prelude.{◌≡◌, true, if◌then◌else◌, None, map, IfOk, option_map};
ghost use Rattle.std.specs.List.{list_all};
ghost use Rattle.cf_core.specs.FromUnit.{tables_of};
ghost use Rattle.cf_core.specs.Joined.{name_in};
ghost use Rattle.cf_core.specs.NodePlace.{place};
ghost use Rattle.cf_core.specs.Numbers.{static_known};
ghost use Rattle.cf_core_shape.specs.Shapes.{object_type_of as object_form};
ghost use Rattle.cf_core_node.specs.Formed.{placed, all as in_order};
ghost use Rattle.cf_core_node.specs.Gives.{Gives};
ghost use Rattle.cf_core_load.specs.Files as spec;

use cf_base::{Items, Memory, Name};
use cf_core::{CoreStatic, CoreUnit};
use cf_core_node::{Defined, NotLoaded, linked, node};
use cf_core_shape::object_type_of;
use cf_run_tree::{ObjectType, RunStatic};
use std::alloc::Global;

/// The type of a static object whose initialiser is constant, or stands in the function whose local it is (6.7, 8.4).
#[tactic(auto, using(crate::proofs::Knowing::object_known))]
fn type_of(unit: &CoreUnit, x: &CoreStatic) -> Result<ObjectType, NotLoaded>
    requires { static_known (tables_of unit.now) x.now ≡ true }
    ensures { Gives (placed (place x.now.start) (if spec.starts_alone x.now then object_form unit.now.types x.now.ty else None)) result }
{
    let at = x.start.at();
    if !(x.is_constant || x.owner.is_some()) {
        return Err(NotLoaded::NotBuilt { at });
    }
    match object_type_of(unit, x.ty) {
        Some(found) => Ok(found),
        None => Err(NotLoaded::NotBuilt { at }),
    }
}

/// The link name of the function whose local an object is.
fn owner_of(alloc: Global, defined: &Defined, owner: &Option<Name>) -> Result<Option<Name>, Memory>
    ensures { IfOk result (λ found. found ≡ option_map (name_in 1 defined.now.own) owner.now) }
{
    match owner {
        None => Ok(None),
        Some(name) => Ok(Some(linked(alloc, defined.own.as_slice(), name.as_slice())?)),
    }
}

/// A static object of a file that defines this.
#[tactic(auto, using(crate::proofs::Knowing::start_known))]
fn object(
    alloc: Global,
    unit: &CoreUnit,
    defined: &Defined,
    x: &CoreStatic,
) -> Result<RunStatic, NotLoaded>
    requires { static_known (tables_of unit.now) x.now ≡ true }
    ensures { Gives (spec.object unit.now.types defined.now x.now) result }
{
    let ty = type_of(unit, x)?;
    let name = linked(alloc, defined.own.as_slice(), x.name.as_slice())?;
    let owner = owner_of(alloc, defined, &x.owner)?;
    let start = node(alloc, unit, defined, &x.start)?;
    Ok(RunStatic {
        name,
        ty,
        start: start.into_inner(),
        owner,
        is_constant: x.is_constant,
        is_shared: x.is_shared,
        is_local: x.is_local,
    })
}

/// Static objects, in their order.
pub(crate) fn objects(
    alloc: Global,
    unit: &CoreUnit,
    defined: &Defined,
    all: &[CoreStatic],
) -> Result<Items<RunStatic>, NotLoaded>
    requires { list_all (static_known (tables_of unit.now)) all.now ≡ true }
    ensures { Gives (in_order (map (spec.object unit.now.types defined.now) all.now)) result }
{
    let mut found = Items::new(alloc);
    for x in all {
        found.push(object(alloc, unit, defined, x)?)?;
    }
    Ok(found)
}
