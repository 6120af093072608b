//! Parameters and locals that would hide a longer static name.

ghost use Rattle.std.specs.Prelude.{◌≡◌, IfOk};
ghost use Rattle.std.specs.Option.{option_copied};
ghost use Rattle.cc_whole.specs.Known.{is_in};
ghost use Rattle.cc_whole_link.specs.Link as rules;
ghost use Rattle.cc_whole_placed.specs.Seen.{placed_of};

use cc_whole_placed::PlacedItem;
use cc_whole_uses::inner_names;
use cf_base::Memory;
use cf_name_table::NameTable;
use std::alloc::Global;

fn is_among(name: &[u8], names: &NameTable) -> bool
    ensures { result ≡ is_in names.now name.now }
{
    names.has(name)
}

/// The first parameter or local of an item that has the longer name of a static name of its unit.
pub(crate) fn captured<'a>(
    alloc: Global,
    placed: &PlacedItem<'a>,
) -> Result<Option<&'a [u8]>, Memory>
    ensures { IfOk result (λ found. option_copied found ≡ rules.captured (placed_of placed.entry.now)) }
{
    let inner = inner_names(alloc, placed.was)?;
    for name in inner.as_slice() {
        if is_among(name, placed.longer_names.get()) {
            return Ok(Some(*name));
        }
    }
    Ok(None)
}
