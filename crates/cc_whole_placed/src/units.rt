ghost use Rattle.std.specs.Prelude.{◌≡◌, ◌+◌, ◌++◌, map, IfOk, OnOk};
ghost use Rattle.cc_whole_link.specs.Placed as link;
ghost use Rattle.cc_whole_placed.specs.Seen.{placed_of};

use crate::placed::{PlacedItem, placed};
use crate::statics::{longer_names, statics};
use cc_whole::{CItem, CUnit};
use cf_base::Memory;
use cf_name_table::NameTable;
use cf_shared::Shared;
use std::alloc::Global;

/// Puts the items of the unit of this number behind others.
fn add_items<'a>(
    alloc: Global,
    unit: usize,
    items: &'a [CItem],
    all: &mut Vec<PlacedItem<'a>>,
) -> Result<(), Memory>
    ensures { OnOk result (map placed_of all.new.items ≡ map placed_of all.old.items ++ link.placed_items unit items.now) }
{
    let names = statics(alloc, unit, items)?;
    let longer = NameTable::of(alloc, longer_names(alloc, unit, items)?)?;
    let longer = Shared::new(alloc, longer)?;
    for item in items {
        all.push(placed(alloc, &names, &longer, item)?)?;
    }
    Ok(())
}

/// The items of units, in order, with the names that they have in the program.
pub fn all_placed<'a>(alloc: Global, units: &'a [CUnit]) -> Result<Vec<PlacedItem<'a>>, Memory>
    ensures { IfOk result (λ all. map placed_of all.items ≡ link.placed_units 1 units.now) }
{
    let mut all = Vec::new(alloc);
    for (index, unit) in units.iter().enumerate() {
        add_items(alloc, index + 1, unit.items.as_slice(), &mut all)?;
    }
    Ok(all)
}
