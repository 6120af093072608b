//! The static names of a unit.

ghost use Rattle.std.specs.Prelude.{◌≡◌, map, IfOk};
ghost use Rattle.cc_whole.specs.Plain.{items_of};
ghost use Rattle.cc_whole_link.specs.Placed.{statics as its_statics, static_renaming, longer as its_longer};
ghost use Rattle.cc_whole_uses.specs.Told.{told};

use crate::item::{is_static, name_of};
use cc_whole::CItem;
use cc_whole_rename::{Statics, longer, renamed};
use cf_base::{Items, Memory, Name};
use cf_name_list::Names;
use std::alloc::Global;

/// The names that some item of a unit declares `static`, in order.
fn static_names<'a>(alloc: Global, items: &'a [CItem]) -> Result<Names<'a>, Memory>
    ensures { IfOk result (λ names. names ≡ its_statics (items_of items.now)) }
{
    let mut names = Names::new(alloc);
    let mut left = items.len();
    while left > 0 {
        left -= 1;
        let item = &items[left];
        if is_static(item) {
            names.add(name_of(item))?;
        }
    }
    Ok(names)
}

/// The static names of the unit of this number.
pub(crate) fn statics<'a>(
    alloc: Global,
    unit: usize,
    items: &'a [CItem],
) -> Result<Statics<'a>, Memory>
    ensures number { IfOk result (λ made. made.unit ≡ unit) }
    ensures names { IfOk result (λ made. made.names ≡ its_statics (items_of items.now)) }
{
    let names = static_names(alloc, items)?;
    Ok(Statics { unit, names })
}

/// The same names as they stand in the program.
pub(crate) fn longer_names(
    alloc: Global,
    unit: usize,
    items: &[CItem],
) -> Result<Items<Name>, Memory>
    ensures { IfOk result (λ made. made ≡ map (its_longer unit) (its_statics (items_of items.now))) }
{
    let mut made = Items::new(alloc);
    for item in items {
        if is_static(item) {
            made.push(longer(alloc, unit, name_of(item))?)?;
        }
    }
    Ok(made)
}

/// Used names as they stand in the program.
pub(crate) fn renamed_names(
    alloc: Global,
    statics: &Statics<'_>,
    names: &[&[u8]],
) -> Result<Items<Name>, Memory>
    ensures { IfOk result (λ made. made ≡ map (static_renaming statics.now.unit statics.now.names) (told names.now)) }
{
    let mut made = Items::new(alloc);
    for name in names {
        made.push(renamed(alloc, statics, name)?)?;
    }
    Ok(made)
}
