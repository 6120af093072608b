//! The items of the program.

ghost use Rattle.std.specs.Prelude.{◌≡◌, [], ◌∷◌, ◌++◌, ◌&&◌, reverse, IfOk};
ghost use Rattle.std.specs.List.{list_any};
ghost use Rattle.cc_whole_link.specs.Link as rules;
ghost use Rattle.cc_whole_link.specs.Placed as link;
ghost use Rattle.cc_whole_placed.specs.Seen.{placed_of};
ghost use Rattle.cc_whole_linker.specs.Earlier.{Chained};
ghost use Rattle.cc_whole_linker.specs.Rules as spec;

use crate::defined::defines_named;
use crate::earlier::{Earlier, earlier_places};
use cc_whole::CItem;
use cc_whole_placed::{PlacedItem, is_definition, is_shared, name_of};
use cf_base::Memory;
use std::alloc::Global;

/// Whether the other one is a shared definition of its name, as it is itself.
fn is_again(placed: &PlacedItem<'_>, other: &PlacedItem<'_>) -> bool
    ensures { result ≡ (link.defines_named (link.its_name (placed_of placed.entry.now)) (placed_of other.entry.now)
        && (link.is_shared (placed_of placed.entry.now) && link.is_shared (placed_of other.entry.now))) }
{
    defines_named(name_of(&placed.now), other) && (is_shared(&placed.now) && is_shared(&other.now))
}

/// Whether it is a shared definition that stands there already.
fn repeats(before: &[PlacedItem<'_>], places: &[Option<usize>], placed: &PlacedItem<'_>) -> bool
    requires { Chained (spec.seen before.now ++ placed_of placed.now ∷ []) places.now }
    ensures { result ≡ rules.repeats (spec.seen before.now) (placed_of placed.entry.now) }
{
    if !is_definition(&placed.now) {
        return false;
    }
    let mut left = Earlier::of(placed, before, places);
    while let Some(other) = left.next() {
        if is_again(placed, other) {
            return true;
        }
    }
    false
}

/// The items in order, but shared definitions once.
pub(crate) fn kept_items(alloc: Global, placed: Vec<PlacedItem<'_>>) -> Result<Vec<CItem>, Memory>
    ensures { IfOk result (λ kept. kept.items ≡ rules.kept_items [] (spec.seen placed.entry.items)) }
{
    let all = placed.as_slice();
    let places = earlier_places(alloc, all)?;
    let mut left = placed;
    let mut kept = Vec::new(alloc);
    while let Some(last) = left.pop() {
        let before = left.as_slice();
        let known = places.as_slice();
        if !repeats(before, known, &last) {
            kept.push(last.now)?;
        }
    }
    kept.reverse();
    Ok(kept)
}
