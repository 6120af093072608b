//! What is open where statements end.

ghost use Rattle.std.specs.Prelude.{◌≡◌, ◌++◌, filter, map, IfOk, OnOk};
ghost use Rattle.cf_lower_kept.specs.Opened as spec;
ghost use Rattle.cf_lowerable_open.specs.Told.{all_told, told};
ghost use Rattle.cf_lowerable_open.specs.Views.{items_of, where_of};

use crate::lists::{is_listed, same_open};
use crate::opened::Opened;
use cf_base::Memory;
use std::alloc::Global;

/// What is open where statements end.
#[derive(Drop)]
pub enum Where {
    /// They fall through, and these are open.
    Falls(Vec<Opened>),
    /// They do not fall through.
    Away,
    /// They are none that sequencing makes.
    Wrong,
}

/// What is so of a local of one way behind both, where these are the other's.
fn met(alloc: Global, x: &Opened, others: &[Opened]) -> Result<Opened, Memory>
    ensures { IfOk result (λ made. told made ≡ spec.met_one (all_told others.now) (told x.now)) }
{
    for y in others {
        if y.is(x.local) {
            return x.both(alloc, y);
        }
    }
    Ok(x.one_way(alloc))
}

/// What is so of the locals of one way behind both.
fn all_met(alloc: Global, left: &[Opened], right: &[Opened]) -> Result<Vec<Opened>, Memory>
    ensures { IfOk result (λ made. all_told made.items ≡ map (spec.met_one (all_told right.now)) (all_told left.now)) }
{
    let mut made = Vec::new(alloc);
    for x in left {
        made.push(met(alloc, x, right)?)?;
    }
    Ok(made)
}

/// Puts what is so of the locals of the other way alone behind others.
fn add_left_out(
    alloc: Global,
    left: &[Opened],
    right: &[Opened],
    made: &mut Vec<Opened>,
) -> Result<(), Memory>
    ensures { OnOk result (all_told made.new.items ≡ all_told made.old.items ++ map spec.one_way (filter (spec.is_left_out (all_told left.now)) (all_told right.now))) }
{
    for y in right {
        if !is_listed(y.local, left) {
            made.push(y.one_way(alloc))?;
        }
    }
    Ok(())
}

/// What is so behind two ways.
fn both(alloc: Global, left: &[Opened], right: &[Opened]) -> Result<Vec<Opened>, Memory>
    ensures { IfOk result (λ made. all_told made.items ≡ spec.both_opened (all_told left.now) (all_told right.now)) }
{
    let mut made = all_met(alloc, left, right)?;
    add_left_out(alloc, left, right, &mut made)?;
    Ok(made)
}

/// What is open behind two ways.
pub fn joined(alloc: Global, left: Where, right: Where) -> Result<Where, Memory>
    ensures { IfOk result (λ place. where_of place ≡ spec.joined (where_of left) (where_of right)) }
{
    match (left, right) {
        (Where::Falls(left), Where::Falls(right)) => {
            Ok(Where::Falls(both(alloc, left.as_slice(), right.as_slice())?))
        }
        (Where::Falls(left), Where::Away) => Ok(Where::Falls(left)),
        (Where::Away, Where::Falls(right)) => Ok(Where::Falls(right)),
        (Where::Away, Where::Away) => Ok(Where::Away),
        (Where::Wrong, _) => Ok(Where::Wrong),
        (_, Where::Wrong) => Ok(Where::Wrong),
    }
}

/// Whether statements come to a place where just these are open.
pub fn comes_to(all: &[Opened], place: &Where) -> bool
    ensures { result ≡ spec.comes_to (all_told all.now) (where_of place.now) }
{
    match place {
        Where::Falls(others) => same_open(all, others.as_slice()),
        Where::Away => true,
        Where::Wrong => false,
    }
}

/// A place, if control may come there.
pub fn only_if(test: bool, place: Where) -> Where
    ensures { where_of result ≡ spec.only_if test (where_of place) }
{
    if test { place } else { Where::Wrong }
}

/// Whether just these are open at a place, if there is one.
pub fn is_at(place: &Option<Vec<Opened>>, all: &[Opened]) -> bool
    ensures { result ≡ spec.is_at (items_of place.now) (all_told all.now) }
{
    match place {
        None => false,
        Some(others) => same_open(others.as_slice(), all),
    }
}
