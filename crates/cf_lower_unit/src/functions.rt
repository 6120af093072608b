//! The file's own functions.

ghost use Rattle.std.specs.Prelude.{◌≡◌, ◌++◌, OnOk};
ghost use Rattle.cc_whole.specs.Plain.{items_of};
ghost use Rattle.cf_lower_unit.specs.Pieces as pieces;

use crate::items::push;
use cc_whole::CItem;
use cf_base::{Items, Memory};
use cf_lower_fn::{lower_function, own_prototype};
use cf_lower_types::Tables;
use cf_plain::PlainFn;
use std::alloc::Global;

/// Declares the file's functions.
pub(crate) fn declare_functions(
    alloc: Global,
    tables: &Tables<'_>,
    all: &[PlainFn],
    made: &mut Items<CItem>,
) -> Result<(), Memory>
    ensures { OnOk result (items_of made.new ≡ items_of made.old ++ pieces.own_heads tables.now all.now) }
{
    for f in all {
        let head = own_prototype(alloc, tables, f)?;
        push(made, CItem::Prototype(head))?;
    }
    Ok(())
}

/// Defines the file's functions.
pub(crate) fn define_functions(
    alloc: Global,
    tables: &Tables<'_>,
    all: &[PlainFn],
    made: &mut Items<CItem>,
) -> Result<(), Memory>
    ensures { OnOk result (items_of made.new ≡ items_of made.old ++ pieces.bodies_of tables.now all.now) }
{
    for f in all {
        let function = lower_function(alloc, tables, f)?;
        push(made, CItem::Function(function))?;
    }
    Ok(())
}
