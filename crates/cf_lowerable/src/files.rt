//! The tests of a plain file.

ghost use Rattle.std.specs.Prelude.{◌≡◌, [], true, IfOk};
ghost use Rattle.cf_lower_types.specs.Ordered.{IsOrdered};
ghost use Rattle.cf_plain.specs.View.{file_of};
ghost use Rattle.cf_plain_kept.specs.Kept.{functions_kept};
ghost use Rattle.cf_lowerable.specs.Remaining as remaining;

use cf_base::Memory;
use cf_lowerable_known::statics_are_known;
use cf_lowerable_names::{names_are_lowered, names_are_used};
use cf_lowerable_open::functions_are_open;
use cf_lowerable_places::functions_are_in_place;
use cf_lowerable_ready::functions_are_ready;
use cf_lowerable_starts::starts_are_alike;
use cf_plain::PlainUnit;
use std::alloc::Global;

/// Whether a file passes all tests, those first that cost least.
fn passes(alloc: Global, made: &PlainUnit) -> Result<bool, Memory>
    requires ordered { IsOrdered made.now.types }
    requires no_classes { made.now.classes.defined ≡ [] }
    requires kept { functions_kept (file_of made.now) ≡ true }
    ensures { IfOk result (λ is. is ≡ remaining.plain_passes (file_of made.now)) }
{
    let known = statics_are_known(alloc, made)?;
    if !known {
        return Ok(false);
    }
    let starts = starts_are_alike(alloc, made)?;
    if !starts {
        return Ok(false);
    }
    let ready = functions_are_ready(alloc, made)?;
    if !ready {
        return Ok(false);
    }
    let open = functions_are_open(alloc, made)?;
    if !open {
        return Ok(false);
    }
    let placed = functions_are_in_place(alloc, made)?;
    if !placed {
        return Ok(false);
    }
    let named = names_are_lowered(alloc, made)?;
    if !named {
        return Ok(false);
    }
    let used = names_are_used(alloc, made)?;
    Ok(used)
}

/// Whether what no law shows yet of sequenced files is so of this one. Where it is not, the file is answered as a form that is not built.
///
/// The file defines no class, each of its types names types before it alone, and its registers are set before they are used: sequencing makes such files.
pub fn plain_passes(alloc: Global, made: &PlainUnit) -> Result<bool, Memory>
    requires ordered { IsOrdered made.now.types }
    requires no_classes { made.now.classes.defined ≡ [] }
    requires kept { functions_kept (file_of made.now) ≡ true }
    ensures passed { IfOk result (λ is. is ≡ true → remaining.Remaining (file_of made.now)) }
    ensures passes { remaining.Remaining (file_of made.now) → IfOk result (λ is. is ≡ true) }
{
    let is = passes(alloc, made)?;
    Ok(is)
}
