//! What happens to each local of a list.

ghost use Rattle.std.specs.Prelude.{◌≡◌, if◌then◌else◌, map, OnOk};
ghost use Rattle.cf_lower_kept.specs.Opened.{first_counts, further_counts, is_local, number_in, overwritten};
ghost use Rattle.cf_lowerable_open.specs.Lists.{begun_with, changed_by};
ghost use Rattle.cf_lowerable_open.specs.Told.{all_told, told};

use crate::located;
use crate::opened::Opened;
use cf_base::{Items, Memory};
use std::alloc::Global;

/// What happens to each local of a list.
#[derive(Clone, Copy, Debug, PartialEq, Eq)]
pub enum Change {
    /// The register gets another value, of which nothing is told.
    Overwritten(u32),
    /// Statements run any number of times, or from any label on.
    Settled,
    /// This local has a value.
    Valued(u32),
    /// The register holds this number, which may be what a flag tells.
    Told(u32, i64),
    /// The register was set to this number.
    Counted(u32, i64),
    /// The register holds a number that is not 0.
    Standing(u32),
}

/// Changes one local.
fn alter(change: &Change, x: &mut Opened)
    ensures { told x.new ≡ changed_by change.now (told x.old) }
{
    match change {
        Change::Overwritten(register) => x.overwrite(*register),
        Change::Settled => x.settle(),
        Change::Valued(local) => x.give_value(*local),
        Change::Told(register, value) => x.tell_flag(*register, *value),
        Change::Counted(register, value) => x.count(*register, *value),
        Change::Standing(register) => x.stand(*register),
    }
}

/// Changes all locals of a list.
pub fn change_all(all: &mut Vec<Opened>, change: Change)
    ensures { all_told all.new.items ≡ map (changed_by change) (all_told all.old.items) }
{
    for x in all.iter_mut() {
        alter(&change, x);
    }
}

/// The register gets the place of the first element of what another one has the place of, in one local.
fn place_first_in(alloc: Global, x: &mut Opened, register: u32, from: u32) -> Result<(), Memory>
    ensures { OnOk result (told x.new ≡ overwritten register (first_counts ((told x.old).places from)) (told x.old)) }
{
    let counts = located::first_counts(alloc, x.counts(from))?;
    x.place(register, counts)
}

/// The register gets the place of the first element of what another one has the place of.
pub fn place_first(
    alloc: Global,
    all: &mut Vec<Opened>,
    register: u32,
    from: u32,
) -> Result<(), Memory>
    ensures { OnOk result (all_told all.new.items ≡ map (λ x. overwritten register (first_counts (x.places from)) x) (all_told all.old.items)) }
{
    for x in all.iter_mut() {
        place_first_in(alloc, x, register, from)?;
    }
    Ok(())
}

/// The register gets the place of an element of the array in which another one has a place, by the number in a third, in one local.
fn place_further_in(
    alloc: Global,
    x: &mut Opened,
    register: u32,
    from: u32,
    by: u32,
) -> Result<(), Memory>
    ensures { OnOk result (told x.new ≡ overwritten register (further_counts (number_in (told x.old).last by) ((told x.old).places from)) (told x.old)) }
{
    let value = located::number_in(x.last, by);
    let counts = located::further_counts(alloc, value, x.counts(from))?;
    x.place(register, counts)
}

/// The register gets the place of an element of the array in which another one has a place, by the number in a third.
pub fn place_further(
    alloc: Global,
    all: &mut Vec<Opened>,
    register: u32,
    from: u32,
    by: u32,
) -> Result<(), Memory>
    ensures { OnOk result (all_told all.new.items ≡ map (λ x. overwritten register (further_counts (number_in x.last by) (x.places from)) x) (all_told all.old.items)) }
{
    for x in all.iter_mut() {
        place_further_in(alloc, x, register, from, by)?;
    }
    Ok(())
}

/// The object of this local is there, if it is this one, in this register, of whose place so much is told.
fn begin_in(
    alloc: Global,
    x: &mut Opened,
    local: u32,
    register: Option<u32>,
    counts: &[u32],
) -> Result<(), Memory>
    ensures { OnOk result (told x.new ≡ (if is_local local (told x.old) then begun_with register counts.now (told x.old) else told x.old)) }
{
    if x.is(local) {
        x.begin(register, Items::from_slice(alloc, counts)?)?;
    }
    Ok(())
}

/// The object of this local is there, in this register, of whose place so much is told.
pub fn begin_all(
    alloc: Global,
    all: &mut Vec<Opened>,
    local: u32,
    register: Option<u32>,
    counts: &[u32],
) -> Result<(), Memory>
    ensures { OnOk result (all_told all.new.items ≡ map (λ x. if is_local local x then begun_with register counts.now x else x) (all_told all.old.items)) }
{
    for x in all.iter_mut() {
        begin_in(alloc, x, local, register, counts)?;
    }
    Ok(())
}
