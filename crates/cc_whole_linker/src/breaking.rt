//! What an item breaks.

ghost use Rattle.std.specs.Prelude.{◌≡◌, ◌++◌, [], ◌∷◌, Option, option_map, IfOk, Some};
ghost use Rattle.std.specs.Option.{option_copied};
ghost use Rattle.cc_whole_link.specs.Link as rules;
ghost use Rattle.cc_whole_placed.specs.Seen.{placed_of};
ghost use Rattle.cc_whole_linker.specs.Answers.{refusal_of, number};
ghost use Rattle.cc_whole_linker.specs.Earlier.{Chained};
ghost use Rattle.cc_whole_linker.specs.Rules as spec;

use crate::defined::undefined_use;
use crate::differing::differs;
use crate::error::BrokenRule;
use crate::twice::second_definition;
use crate::types::any_other_type;
use cc_whole_link::LinkRule;
use cc_whole_placed::{PlacedItem, name_of};
use cf_base::{Items, Memory, Name};
use cf_name_list::Names;
use std::alloc::Global;

/// A broken rule, about this name.
pub(crate) fn broken(alloc: Global, rule: LinkRule, name: &[u8]) -> Result<BrokenRule, Memory>
    ensures { IfOk result (λ b. refusal_of b ≡ rules.refusal (number rule) name.now) }
{
    let name = Items::from_slice(alloc, name)?;
    Ok(BrokenRule { rule, name })
}

/// What an item of this name breaks first, by what was found of each rule.
fn first_of(
    alloc: Global,
    name: &[u8],
    undefined: Option<&[u8]>,
    twice: Option<Name>,
    differs: bool,
    other_type: bool,
) -> Result<Option<BrokenRule>, Memory>
    ensures { IfOk result (λ b. option_map refusal_of b ≡ spec.first_of name.now (option_copied undefined.entry) twice differs other_type) }
{
    if let Some(name) = undefined {
        return Ok(Some(broken(alloc, LinkRule::L1, name)?));
    }
    if let Some(name) = twice {
        return Ok(Some(BrokenRule {
            rule: LinkRule::L2,
            name,
        }));
    }
    if differs {
        return Ok(Some(broken(alloc, LinkRule::L3, name)?));
    }
    if other_type {
        return Ok(Some(broken(alloc, LinkRule::L5, name)?));
    }
    Ok(None)
}

/// What an item breaks behind those before it, in the order L1, L2, L3, L5, if all items define these names.
pub(crate) fn broken_at(
    alloc: Global,
    defined: &Names<'_>,
    all: &[PlacedItem<'_>],
    before: &[PlacedItem<'_>],
    places: &[Option<usize>],
    placed: &PlacedItem<'_>,
) -> Result<Option<BrokenRule>, Memory>
    requires names { defined.now ≡ spec.defined_names (spec.seen all.now) }
    requires places { Chained (spec.seen before.now ++ placed_of placed.now ∷ []) places.now }
    ensures { IfOk result (λ b. rules.Breaks (spec.seen all.now) (spec.seen before.now) (placed_of placed.entry.now) (option_map refusal_of b)) }
{
    let _all = all;
    let undefined = undefined_use(defined, placed.uses.as_slice());
    let twice = second_definition(alloc, before, places, placed)?;
    let differ = differs(before, places, placed);
    let other_type = any_other_type(before, places, placed);
    first_of(
        alloc,
        name_of(&placed.now),
        undefined,
        twice,
        differ,
        other_type,
    )
}
