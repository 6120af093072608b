//! Units become a program.

ghost use Rattle.std.specs.Prelude.{◌≡◌, None, option_map, decimal, IfOk};
ghost use Rattle.cc_whole_link.specs.Link as rules;
ghost use Rattle.cc_whole_linker.specs.Answers as spec;
ghost use Rattle.cc_whole_linker.specs.Rules.{seen};

use crate::breaking::broken;
use crate::bytes::{MOST_STATIC, passes_static};
use crate::defined::any_defines;
use crate::error::{BrokenRule, LinkErr};
use crate::first::first_broken;
use crate::kept::kept_items;
use crate::start::added_main;
use cc_whole::{CItem, CProgram, CUnit};
use cc_whole_link::LinkRule;
use cc_whole_placed::{PlacedItem, all_placed};
use cf_base::{Bound, Items, Limit, Memory};
use itoa::Buffer;
use std::alloc::Global;

/// The first version that is not 1.
fn other_version(units: &[CUnit]) -> Option<u32>
    ensures { option_map (λ version. decimal version) result ≡ rules.other_version units.now }
{
    for unit in units {
        if unit.version != 1 {
            return Some(unit.version);
        }
    }
    None
}

/// L6 about this version.
fn broken_version(alloc: Global, version: u32) -> Result<BrokenRule, Memory>
    ensures { IfOk result (λ b. spec.refusal_of b ≡ rules.refusal 6 (decimal version)) }
{
    let mut digits = Buffer::new();
    broken(alloc, LinkRule::L6, digits.format(version).as_bytes())
}

/// The items of a program, with a `main` of its own or the one that calls `__main`; without either L4 is broken.
fn with_main(alloc: Global, all: Vec<PlacedItem<'_>>) -> Result<Items<CItem>, LinkErr>
    ensures { spec.Made (rules.with_main (seen all.entry.items)) result }
{
    if any_defines(b"main", all.as_slice()) {
        let items = kept_items(alloc, all)?;
        return Ok(Items::from_vec(items));
    }
    if !any_defines(b"__main", all.as_slice()) {
        return Err(LinkErr::Refused(broken(alloc, LinkRule::L4, b"__main")?));
    }
    let main = added_main(alloc, all.as_slice())?;
    let mut items = Items::from_vec(kept_items(alloc, all)?);
    items.push(main)?;
    Ok(items)
}

/// The program of these items, if their variables are within the limit.
fn limited(items: Items<CItem>) -> Result<CProgram, LinkErr>
    ensures { spec.Limited items result }
{
    if passes_static(items.as_slice()) {
        return Err(LinkErr::Limit(Limit {
            bound: Bound::Static,
            most: MOST_STATIC,
        }));
    }
    Ok(CProgram { items })
}

/// The program of items that break no rule, or L4, or the limit.
#[tactic(auto, using(crate::proofs::LinkLaws::items_finished, crate::proofs::LinkLaws::refusal_finished))]
fn finished(alloc: Global, all: Vec<PlacedItem<'_>>) -> Result<CProgram, LinkErr>
    ensures { spec.Finished (rules.with_main (seen all.entry.items)) result }
{
    match with_main(alloc, all) {
        Ok(items) => limited(items),
        Err(error) => Err(error),
    }
}

/// The same of units of version 1.
fn of_items(alloc: Global, units: &[CUnit]) -> Result<CProgram, LinkErr>
    requires { rules.other_version units.now ≡ None }
    ensures { spec.Answers units.now result }
{
    let all = all_placed(alloc, units)?;
    match first_broken(alloc, all.as_slice())? {
        Some(broken) => Err(LinkErr::Refused(broken)),
        None => finished(alloc, all),
    }
}

/// The program that the units make, in their order. A refusal comes by its rule and name: L6 first, then item by item L1, L2, L3 and L5, then L4, and
/// behind all the limit on the bytes of variables.
#[tactic(auto, using(crate::proofs::LinkLaws::version_refused))]
pub fn link(alloc: Global, units: &[CUnit]) -> Result<CProgram, LinkErr>
    ensures { spec.Answers units.now result }
{
    match other_version(units) {
        Some(version) => {
            let broken = broken_version(alloc, version)?;
            Err(LinkErr::Refused(broken))
        }
        None => of_items(alloc, units),
    }
}
