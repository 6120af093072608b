//! The first item that breaks a rule.

ghost use Rattle.std.specs.Prelude.{◌≡◌, [], option_map, IfOk};
ghost use Rattle.cc_whole_link.specs.Link as rules;
ghost use Rattle.cc_whole_linker.specs.Answers.{refusal_of};
ghost use Rattle.cc_whole_linker.specs.Rules as spec;

use crate::breaking::broken_at;
use crate::defined::defined_names;
use crate::earlier::earlier_places;
use crate::error::BrokenRule;
use cc_whole_placed::PlacedItem;
use cf_base::Memory;
use std::alloc::Global;

/// What the first of the items that breaks a rule breaks, if one does.
pub(crate) fn first_broken(
    alloc: Global,
    all: &[PlacedItem<'_>],
) -> Result<Option<BrokenRule>, Memory>
    ensures { IfOk result (λ b. rules.FirstBroken (spec.seen all.now) [] (spec.seen all.now) (option_map refusal_of b)) }
{
    let defined = defined_names(alloc, all)?;
    let places = earlier_places(alloc, all)?;
    for (index, placed) in all.iter().enumerate() {
        match broken_at(
            alloc,
            &defined,
            all,
            &all[..index],
            places.as_slice(),
            placed,
        )? {
            Some(broken) => return Ok(Some(broken)),
            None => {}
        }
    }
    Ok(None)
}
