//! Items before one that have its name.

ghost use Rattle.std.specs.Prelude.{◌≡◌, ◌<◌, ◌≤◌, ◌++◌, [], ◌∷◌, length, take, slice_index_or, option_map, IfOk};
ghost use Rattle.std.specs.Option.{option_copied};
ghost use Rattle.cc_whole_link.specs.Placed.{its_name};
ghost use Rattle.cc_whole_placed.specs.Seen.{placed_of};
ghost use Rattle.cc_whole_linker.specs.Earlier.{Chained, Next};
ghost use Rattle.cc_whole_linker.specs.Rules.{seen};

use cc_whole_placed::{PlacedItem, name_of};
use cf_base::Memory;
use cf_name_places::Places;
use std::alloc::Global;
use std::marker::Model;

/// For each item where the last one before it with its name stands.
pub(crate) fn earlier_places(
    alloc: Global,
    all: &[PlacedItem<'_>],
) -> Result<Vec<Option<usize>>, Memory>
    ensures { IfOk result (λ made. Chained (seen all.now) made.items) }
{
    let mut names = Places::new(alloc);
    let mut earlier = Vec::new(alloc);
    for placed in all {
        let name = name_of(&placed.now);
        earlier.push(names.find(name))?;
        names.add(name)?;
    }
    Ok(earlier)
}

/// The item at this place.
fn item_at<'a, 'b>(items: &'a [PlacedItem<'b>], place: usize) -> &'a PlacedItem<'b>
    requires { place < length items.now }
    ensures { result.now ≡ slice_index_or items.now place result.now }
{
    &items[place]
}

/// The items before this place.
fn items_before<'a, 'b>(items: &'a [PlacedItem<'b>], place: usize) -> &'a [PlacedItem<'b>]
    requires { place ≤ length items.now }
    ensures { result.now ≡ take place items.now }
{
    &items[..place]
}

/// What stands at this place.
fn place_at(places: &[Option<usize>], place: usize) -> Option<usize>
    requires { place < length places.now }
    ensures { result ≡ slice_index_or places.now place result }
{
    places[place]
}

/// The items before one that have its name, the last one first.
#[derive(Drop)]
pub(crate) struct Earlier<'a, 'b> {
    name: &'a [u8],
    before: &'a [PlacedItem<'b>],
    places: &'a [Option<usize>],
    last: Option<usize>,
}

impl<'a, 'b> Model for Earlier<'a, 'b> {
    ghost use Rattle.std.specs.Prelude.{◌≡◌};
    ghost use Rattle.std.specs.Coded.{codes};
    ghost use Rattle.cc_whole.specs.contracts.statement.CStatement as statement;
    ghost use Rattle.cc_whole.specs.contracts.statement.CBody as body;
    ghost use Rattle.cc_whole_linker.specs.Earlier.{Sought, IsPlaced};
    ghost use Rattle.cc_whole_linker.specs.Rules.{seen};

    ghost Value = { Sought };

    ghost coded = { Prim.hlevel (codes, statement.the_row.coded, body.the_row.coded) };

    ghost view = { λ e. record { name = e.name.now; items = seen e.before.now } };

    ghost invariant = { λ e. IsPlaced e.name.now (seen e.before.now) e.places.now e.last };
}

impl<'a, 'b> Earlier<'a, 'b> {
    /// Those before this one.
    pub(crate) fn of(
        placed: &'a PlacedItem<'_>,
        before: &'a [PlacedItem<'b>],
        places: &'a [Option<usize>],
    ) -> Earlier<'a, 'b>
        requires { Chained (seen before.now ++ placed_of placed.now ∷ []) places.now }
        ensures name { result.name ≡ its_name (placed_of placed.entry.now) }
        ensures items { result.items ≡ seen before.now }
    {
        let last = place_at(places, before.len());
        Earlier {
            name: name_of(&placed.now),
            before,
            places,
            last,
        }
    }

    /// The last one that is left.
    pub(crate) fn next(&mut self) -> Option<&'a PlacedItem<'b>>
        ensures { Next self.old (option_map placed_of (option_copied result)) self.new }
    {
        match self.last {
            None => None,
            Some(place) => {
                let other = item_at(self.before, place);
                let before = items_before(self.before, place);
                let last = place_at(self.places, place);
                *self = Earlier {
                    name: self.name,
                    before,
                    places: self.places,
                    last,
                };
                Some(other)
            }
        }
    }
}
