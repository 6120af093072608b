//! The file's static objects and literals.

ghost use Rattle.std.specs.Prelude.{◌≡◌, ◌++◌, IfOk, OnOk};
ghost use Rattle.cc_whole.specs.Plain.{items_of};
ghost use Rattle.cf_lower.specs.Functions as spec;
ghost use Rattle.cf_lower_types.specs.Bare.{classes_of};
ghost use Rattle.cf_plain.specs.View.{static_of};
ghost use Rattle.cf_lower_unit.specs.Pieces as pieces;

use crate::items::push;
use crate::literals::{function_literals, start_literals};
use cc_whole::{CItem, CVariable};
use cf_base::{Items, Memory};
use cf_lower_fn::object_type;
use cf_lower_types::Tables;
use cf_plain::{PlainFn, PlainStatic};
use std::alloc::Global;

/// The C variable of a static object.
fn lower_static(alloc: Global, tables: &Tables<'_>, x: &PlainStatic) -> Result<CVariable, Memory>
    ensures { IfOk result (λ made. made ≡ spec.lowered_static (classes_of tables.now) (static_of tables.now x.now)) }
{
    let ty = object_type(tables, x.ty)?;
    let name = Items::from_slice(alloc, x.name.as_slice())?;
    Ok(CVariable {
        is_shared: x.is_shared,
        is_static: x.is_local,
        ty,
        name,
        initialiser: None,
    })
}

/// Defines static objects.
fn define_statics(
    alloc: Global,
    tables: &Tables<'_>,
    all: &[PlainStatic],
    made: &mut Items<CItem>,
) -> Result<(), Memory>
    ensures { OnOk result (items_of made.new ≡ items_of made.old ++ pieces.objects_of tables.now all.now) }
{
    for x in all {
        let variable = lower_static(alloc, tables, x)?;
        push(made, CItem::Variable(variable))?;
    }
    Ok(())
}

/// The C variables of the static objects and of the literals.
pub(crate) fn own_variables(
    alloc: Global,
    tables: &Tables<'_>,
    functions: &[PlainFn],
    statics: &[PlainStatic],
) -> Result<Items<CItem>, Memory>
    ensures { IfOk result (λ made. items_of made ≡ spec.own_variables (pieces.file_with tables.now functions.now statics.now)) }
{
    let mut made = Items::new(alloc);
    define_statics(alloc, tables, statics, &mut made)?;
    function_literals(alloc, tables, functions, &mut made)?;
    start_literals(alloc, tables, statics, &mut made)?;
    Ok(made)
}
