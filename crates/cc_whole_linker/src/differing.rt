//! Shared definitions that differ.

ghost use Rattle.std.specs.Prelude.{◌≡◌, ◌↔◌, ◌++◌, [], ◌∷◌, ◌&&◌, IsTrue};
ghost use Rattle.cc_whole_link.specs.Link as rules;
ghost use Rattle.cc_whole_link.specs.Placed as link;
ghost use Rattle.cc_whole_placed.specs.Seen.{placed_of};
ghost use Rattle.cc_whole_linker.specs.Earlier.{Chained};
ghost use Rattle.cc_whole_linker.specs.Rules as spec;

use crate::defined::defines_named;
use crate::earlier::Earlier;
use cc_whole_placed::{PlacedItem, is_shared, name_of};
use cc_whole_same::same_item;

/// Whether both are shared.
fn both_shared(placed: &PlacedItem<'_>, other: &PlacedItem<'_>) -> bool
    ensures { result ≡ (link.is_shared (placed_of placed.entry.now) && link.is_shared (placed_of other.entry.now)) }
{
    is_shared(&placed.now) && is_shared(&other.now)
}

/// Whether the other one is a shared definition of its name, and another as it stands in its unit.
#[tactic(auto, using(crate::proofs::DifferLaws::differs_from_laws))]
fn differs_from(placed: &PlacedItem<'_>, other: &PlacedItem<'_>) -> bool
    ensures { IsTrue result ↔ spec.DiffersFrom (placed_of placed.entry.now) (placed_of other.entry.now) }
{
    if defines_named(name_of(&placed.now), other) && both_shared(placed, other) {
        !same_item(placed.was, other.was)
    } else {
        false
    }
}

/// Whether one of those before it does.
pub(crate) fn differs(
    before: &[PlacedItem<'_>],
    places: &[Option<usize>],
    placed: &PlacedItem<'_>,
) -> bool
    requires { Chained (spec.seen before.now ++ placed_of placed.now ∷ []) places.now }
    ensures { IsTrue result ↔ rules.Differs (spec.seen before.now) (placed_of placed.entry.now) }
{
    let mut left = Earlier::of(placed, before, places);
    while let Some(other) = left.next() {
        if differs_from(placed, other) {
            return true;
        }
    }
    false
}
