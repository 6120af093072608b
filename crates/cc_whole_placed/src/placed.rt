ghost use Rattle.std.specs.Prelude.{◌≡◌, IfOk, map};
ghost use Rattle.cc_whole_link.specs.Placed as link;
ghost use Rattle.cc_whole_placed.specs.Seen.{placed_of};

use crate::item::name_of;
use crate::statics::renamed_names;
use cc_whole::CItem;
use cc_whole_rename::{Statics, renamed_item};
use cc_whole_uses::uses_of_item;
use cf_base::{Items, Memory, Name};
use cf_name_table::NameTable;
use cf_shared::Shared;
use std::alloc::Global;

/// An item of a unit.
#[derive(Drop)]
pub struct PlacedItem<'a> {
    /// The number of its unit, from 1.
    pub unit: usize,
    /// As it stands in its unit.
    pub was: &'a CItem,
    /// As it stands in the program.
    pub now: CItem,
    /// The names of functions and variables that it uses, as they are in the program, in the order of the text.
    pub uses: Items<Name>,
    /// Whether its name is its unit's alone.
    pub is_static: bool,
    /// The static names of its unit, as they are in the program.
    pub longer_names: Shared<NameTable>,
}

/// An item of the unit with these static names, which are these in the program.
pub(crate) fn placed<'a>(
    alloc: Global,
    statics: &Statics<'_>,
    longer_names: &Shared<NameTable>,
    item: &'a CItem,
) -> Result<PlacedItem<'a>, Memory>
    requires { longer_names.now ≡ map (link.longer statics.now.unit) statics.now.names }
    ensures { IfOk result (λ made. placed_of made ≡ link.placed statics.now.unit statics.now.names item.now) }
{
    let used = uses_of_item(alloc, item)?;
    let uses = renamed_names(alloc, statics, used.as_slice())?;
    let now = renamed_item(alloc, statics, item)?;
    Ok(PlacedItem {
        unit: statics.unit,
        was: item,
        now,
        uses,
        is_static: statics.names.has(name_of(item)),
        longer_names: longer_names.another()?,
    })
}
