//! The names that are defined.

ghost use Rattle.std.specs.Prelude.{◌≡◌, find, IfOk};
ghost use Rattle.std.specs.Option.{option_copied};
ghost use Rattle.std.specs.List.{list_any};
ghost use Rattle.cc_whole_link.specs.Placed as link;
ghost use Rattle.cc_whole_placed.specs.Seen.{placed_of};
ghost use Rattle.cc_whole_linker.specs.Rules as spec;

use cc_whole_placed::{PlacedItem, is_definition, name_of};
use cc_whole_valid::is_library;
use cf_base::{Memory, Name};
use cf_name_list::Names;
use std::alloc::Global;

/// The names that items define in the program, the first one in front.
pub(crate) fn defined_names<'a>(
    alloc: Global,
    all: &'a [PlacedItem<'_>],
) -> Result<Names<'a>, Memory>
    ensures { IfOk result (λ names. names ≡ spec.defined_names (spec.seen all.now)) }
{
    let mut names = Names::new(alloc);
    let mut left = all.len();
    while left > 0 {
        left -= 1;
        let placed = &all[left];
        if is_definition(&placed.now) {
            names.add(name_of(&placed.now))?;
        }
    }
    Ok(names)
}

/// Whether an item defines the name in the program.
pub(crate) fn defines_named(name: &[u8], placed: &PlacedItem<'_>) -> bool
    ensures { result ≡ link.defines_named name.now (placed_of placed.entry.now) }
{
    is_definition(&placed.now) && name_of(&placed.now) == name
}

/// Whether one of the items does.
pub(crate) fn any_defines(name: &[u8], all: &[PlacedItem<'_>]) -> bool
    ensures { result ≡ list_any (link.defines_named name.now) (spec.seen all.now) }
{
    for placed in all {
        if defines_named(name, placed) {
            return true;
        }
    }
    false
}

/// The first of the used names that no unit defines, the library functions excepted.
pub(crate) fn undefined_use<'a>(defined: &Names<'_>, uses: &'a [Name]) -> Option<&'a [u8]>
    ensures { option_copied result ≡ find (spec.is_undefined defined.now) uses.now }
{
    for name in uses {
        if !is_library(name.as_slice()) && !defined.has(name.as_slice()) {
            return Some(name.as_slice());
        }
    }
    None
}
