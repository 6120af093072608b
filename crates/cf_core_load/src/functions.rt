//! Functions (8.3).

ghost use Rattle.std.specs.Prelude.{◌≡◌, true, map};
ghost use Rattle.std.specs.List.{list_all};
ghost use Rattle.cf_core.specs.FromUnit.{tables_of};
ghost use Rattle.cf_core.specs.NodePlace.{place};
ghost use Rattle.cf_core.specs.Numbers.{function_known};
ghost use Rattle.cf_core_shape.specs.Shapes.{each, object_type_of as object_form, signature as signature_form};
ghost use Rattle.cf_core_node.specs.Formed.{placed, all as in_order};
ghost use Rattle.cf_core_node.specs.Gives.{Gives};
ghost use Rattle.cf_core_load.specs.Files as spec;

use cf_base::Items;
use cf_core::{CoreFn, CoreUnit, Role};
use cf_core_node::{Defined, NotLoaded, linked, node};
use cf_core_shape::{object_types, signature};
use cf_run_tree::{ObjectType, RunFn, Signature};
use std::alloc::Global;

/// The type of a function that is no member of a class.
#[tactic(auto, using(crate::proofs::Knowing::params_known, crate::proofs::Knowing::result_known))]
fn head(alloc: Global, unit: &CoreUnit, f: &CoreFn) -> Result<Signature, NotLoaded>
    requires { function_known (tables_of unit.now) f.now ≡ true }
    ensures { Gives (placed (place f.now.body) (spec.plain_head f.now.role (signature_form unit.now.types f.now.params f.now.result))) result }
{
    let at = f.body.at();
    match f.role {
        Role::Plain => match signature(alloc, unit, f.params.as_slice(), f.result)? {
            Some(found) => Ok(found),
            None => Err(NotLoaded::NotBuilt { at }),
        },
        Role::Member(_) => Err(NotLoaded::NotBuilt { at }),
        Role::Constructor(_) => Err(NotLoaded::NotBuilt { at }),
        Role::Destructor(_) => Err(NotLoaded::NotBuilt { at }),
    }
}

/// The types of a function's locals.
#[tactic(auto, using(crate::proofs::Knowing::locals_known))]
fn locals(alloc: Global, unit: &CoreUnit, f: &CoreFn) -> Result<Items<ObjectType>, NotLoaded>
    requires { function_known (tables_of unit.now) f.now ≡ true }
    ensures { Gives (placed (place f.now.body) (each (object_form unit.now.types) f.now.locals)) result }
{
    let at = f.body.at();
    match object_types(alloc, unit, f.locals.as_slice())? {
        Some(found) => Ok(found),
        None => Err(NotLoaded::NotBuilt { at }),
    }
}

/// A function of a file that defines this.
#[tactic(auto, using(crate::proofs::Knowing::body_known))]
fn function(
    alloc: Global,
    unit: &CoreUnit,
    defined: &Defined,
    f: &CoreFn,
) -> Result<RunFn, NotLoaded>
    requires { function_known (tables_of unit.now) f.now ≡ true }
    ensures { Gives (spec.function unit.now.types defined.now f.now) result }
{
    let signature = head(alloc, unit, f)?;
    let locals = locals(alloc, unit, f)?;
    let name = linked(alloc, defined.own.as_slice(), f.name.as_slice())?;
    let body = node(alloc, unit, defined, &f.body)?;
    Ok(RunFn {
        name,
        signature,
        locals,
        body: body.into_inner(),
        is_shared: f.is_shared,
        is_local: f.is_local,
    })
}

/// Functions, in their order.
pub(crate) fn functions(
    alloc: Global,
    unit: &CoreUnit,
    defined: &Defined,
    all: &[CoreFn],
) -> Result<Items<RunFn>, NotLoaded>
    requires { list_all (function_known (tables_of unit.now)) all.now ≡ true }
    ensures { Gives (in_order (map (spec.function unit.now.types defined.now) all.now)) result }
{
    let mut found = Items::new(alloc);
    for f in all {
        found.push(function(alloc, unit, defined, f)?)?;
    }
    Ok(found)
}
