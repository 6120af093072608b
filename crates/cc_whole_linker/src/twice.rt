//! Second definitions of a name.

ghost use Rattle.std.specs.Prelude.{◌≡◌, ◌++◌, [], ◌∷◌, ◌||◌, IfOk, bytes_eq, codes};
ghost use Rattle.std.specs.List.{list_any};
ghost use Rattle.cc_whole_link.specs.Link as rules;
ghost use Rattle.cc_whole_link.specs.Placed as link;
ghost use Rattle.cc_whole_placed.specs.Seen.{placed_of};
ghost use Rattle.cc_whole_linker.specs.Earlier.{Chained};
ghost use Rattle.cc_whole_linker.specs.Rules.{seen};

use crate::capturing::captured;
use crate::defined::defines_named;
use crate::earlier::Earlier;
use cc_whole_placed::{PlacedItem, is_definition, is_shared, name_of};
use cf_base::{Items, Memory, Name};
use std::alloc::Global;

/// Whether the other one defines its name too, and not both are shared.
fn second(placed: &PlacedItem<'_>, other: &PlacedItem<'_>) -> bool
    ensures { result ≡ rules.second (placed_of placed.entry.now) (placed_of other.entry.now) }
{
    defines_named(name_of(&placed.now), other) && !(is_shared(&placed.now) && is_shared(&other.now))
}

/// Whether one of those before it is such a one.
fn any_second(before: &[PlacedItem<'_>], places: &[Option<usize>], placed: &PlacedItem<'_>) -> bool
    requires { Chained (seen before.now ++ placed_of placed.now ∷ []) places.now }
    ensures { result ≡ list_any (rules.second (placed_of placed.entry.now)) (seen before.now) }
{
    let mut left = Earlier::of(placed, before, places);
    while let Some(other) = left.next() {
        if second(placed, other) {
            return true;
        }
    }
    false
}

/// Whether a definition has this name in its unit.
fn is_old(name: &[u8], placed: &PlacedItem<'_>) -> bool
    ensures { result ≡ bytes_eq (link.old_name (placed_of placed.entry.now)) name.now }
{
    name_of(placed.was) == name
}

/// Whether it is `main`, which is not static.
fn is_the_main(placed: &PlacedItem<'_>) -> bool
    ensures { result ≡ rules.is_the_main (placed_of placed.entry.now) }
{
    defines_named(b"main", placed)
}

/// Whether the linker's own `main` would call it.
fn is_start(placed: &PlacedItem<'_>) -> bool
    ensures { result ≡ rules.is_start (placed_of placed.entry.now) }
{
    defines_named(b"__main", placed)
        || (is_definition(&placed.now) && (is_old(b"__sti", placed) || is_old(b"__hci", placed)))
}

/// Whether one unit defines `main`, and another what the linker's `main` would call.
fn clashes(placed: &PlacedItem<'_>, other: &PlacedItem<'_>) -> bool
    ensures { result ≡ rules.clashes (placed_of placed.entry.now) (placed_of other.entry.now) }
{
    !(placed.unit == other.unit)
        && ((is_the_main(placed) && is_start(other)) || (is_start(placed) && is_the_main(other)))
}

/// Whether it is `main`, or what the linker's own `main` would call.
fn may_clash(placed: &PlacedItem<'_>) -> bool
    ensures { result ≡ (rules.is_the_main (placed_of placed.entry.now) || rules.is_start (placed_of placed.entry.now)) }
{
    is_the_main(placed) || is_start(placed)
}

fn any_clashes(placed: &PlacedItem<'_>, before: &[PlacedItem<'_>]) -> bool
    ensures { result ≡ list_any (rules.clashes (placed_of placed.entry.now)) (seen before.now) }
{
    if !may_clash(placed) {
        return false;
    }
    for other in before {
        if clashes(placed, other) {
            return true;
        }
    }
    false
}

/// The name that an item defines a second time behind those before it, if it does.
pub(crate) fn second_definition(
    alloc: Global,
    before: &[PlacedItem<'_>],
    places: &[Option<usize>],
    placed: &PlacedItem<'_>,
) -> Result<Option<Name>, Memory>
    requires { Chained (seen before.now ++ placed_of placed.now ∷ []) places.now }
    ensures { IfOk result (λ name. name ≡ rules.second_definition (seen before.now) (placed_of placed.entry.now)) }
{
    if is_definition(&placed.now) && any_second(before, places, placed) {
        return Ok(Some(Items::from_slice(alloc, name_of(&placed.now))?));
    }
    if any_clashes(placed, before) {
        return Ok(Some(Items::from_slice(alloc, b"main")?));
    }
    match captured(alloc, placed)? {
        None => Ok(None),
        Some(name) => Ok(Some(Items::from_slice(alloc, name)?)),
    }
}
