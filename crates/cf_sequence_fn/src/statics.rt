ghost use Rattle.std.specs.Prelude.{◌≡◌, true, map, IfOk};
ghost use Rattle.cf_core.specs.FromUnit.{tables_of};
ghost use Rattle.cf_core.specs.Numbers.{static_known};
ghost use Rattle.cf_sequence_fn.specs.Functions.{written_object};

use cf_base::{Items, Memory, Name};
use cf_core::{CoreStatic, CoreUnit};
use cf_plain::PlainStatic;
use cf_sequence_expr::{Writing, add_locals, copied};
use cf_sequence_stmt::placed;
use std::alloc::Global;

/// The same name, if there is one.
fn maybe_copied(alloc: Global, name: &Option<Name>) -> Result<Option<Name>, Memory>
    ensures { IfOk result (λ made. made ≡ name.now) }
{
    match name {
        None => Ok(None),
        Some(name) => Ok(Some(copied(alloc, name)?)),
    }
}

/// A static object as plain statements, with the locals that its initialiser adds (8.4). What is not built yet writes nothing.
#[tactic(auto, unfolding(crate::specs::Functions::written_object))]
pub fn object(alloc: Global, unit: &CoreUnit, x: &CoreStatic) -> Result<PlainStatic, Memory>
    requires { static_known (tables_of unit.now) x.now ≡ true }
    ensures { IfOk result (λ made. made ≡ written_object unit.now.types alloc x.now) }
{
    let name = copied(alloc, &x.name)?;
    let owner = maybe_copied(alloc, &x.owner)?;
    let mut locals = Items::new(alloc);
    add_locals(unit, &x.start, &mut locals)?;
    let mut writing = Writing {
        alloc,
        code: Items::new(alloc),
        next: 0,
    };
    placed(unit, x, &mut writing)?;
    let Writing { code, .. } = writing;
    Ok(PlainStatic {
        name,
        ty: x.ty,
        locals,
        start: code,
        owner,
        is_constant: x.is_constant,
        is_shared: x.is_shared,
        is_local: x.is_local,
    })
}

/// The static objects of a file as plain statements, in order.
pub fn objects(alloc: Global, unit: &CoreUnit) -> Result<Items<PlainStatic>, Memory>
    ensures { IfOk result (λ made. made ≡ map (written_object unit.now.types alloc) unit.now.statics) }
{
    let _valid = unit.functions();
    let mut made = Items::new(alloc);
    for x in unit.statics() {
        made.push(object(alloc, unit, x)?)?;
    }
    Ok(made)
}
