//! The unit of a core whose constructs are all built.

ghost use Rattle.std.specs.Prelude.{◌≡◌, [], true, None, IfOk};
ghost use Rattle.cf_lower_types.specs.Ordered.{IsOrdered};
ghost use Rattle.cf_plain.specs.View.{file_of};
ghost use Rattle.cf_plain_kept.specs.Kept.{functions_kept};
ghost use Rattle.cf_sequence_built.specs.Unbuilt.{in_file};
ghost use Rattle.cf_sequence_unit.specs.Sequences.{Sequences};
ghost use Rattle.cf_compile.specs.Takes as spec;
ghost use Rattle.cf_compile.specs.Steps.{Finishes, Makes};

use crate::compiled::Compiled;
use crate::fault::{Fault, unbuilt_at};
use crate::testing::{core_fits, is_lowerable};
use crate::writing::written;
use cc_whole_printed::{printed_text_is_its_text, valid_units_are_written};
use cf_base::{Bound, Limit, Memory};
use cf_core::CoreUnit;
use cf_lower_valid::units_are_valid;
use cf_one_file::lowerable_file_runs_as_meant;
use cf_plain::PlainUnit;
use cf_sequence_kept::sequenced_registers_are_kept;
use cf_sequence_unit::sequence;
use std::alloc::Global;

/// The most bytes of a function's frame.
const MOST_FRAME: u64 = 65536;

/// The plain unit of a core. Where all constructs of the core are built it fails for want of memory alone.
fn plain_of(alloc: Global, core: CoreUnit) -> Result<PlainUnit, Memory>
    ensures { IfOk result (λ plain. Sequences core plain) }
{
    match sequence(alloc, core) {
        Ok(plain) => Ok(plain),
        Err(_) => Err(Memory),
    }
}

/// The greatest of these numbers, 0 where there is none.
fn greatest(bounds: &[u64]) -> u64
    ensures { result ≡ spec.greatest bounds.now }
{
    let mut most: u64 = 0;
    for bound in bounds {
        most = most.max(*bound);
    }
    most
}

/// The unit of a plain file and its text, behind the limit on frames and the tests; `passes` tells whether its core fits.
fn finished(
    alloc: Global,
    plain: &PlainUnit,
    passes: Result<bool, Memory>,
) -> Result<Compiled, Fault>
    requires ordered { IsOrdered plain.now.types }
    requires no_classes { plain.now.classes.defined ≡ [] }
    requires kept { functions_kept (file_of plain.now) ≡ true }
    ensures { Finishes plain.now passes result }
{
    let frame = greatest(plain.frames());
    if frame > MOST_FRAME {
        return Err(Fault::Limit(Limit {
            bound: Bound::Frame,
            most: MOST_FRAME,
        }));
    }
    let passes = passes?;
    if !passes {
        return Err(unbuilt_at(0));
    }
    let lowers = is_lowerable(alloc, plain)?;
    if !lowers {
        return Err(unbuilt_at(0));
    }
    written(alloc, plain, frame)
}

/// The unit of a core and its text, or that it is not as lowering asks, behind the limit on frames.
pub fn built(alloc: Global, core: CoreUnit) -> Result<Compiled, Fault>
    requires { in_file core ≡ None }
    ensures { Makes core result }
{
    sequenced_registers_are_kept();
    units_are_valid();
    valid_units_are_written();
    printed_text_is_its_text();
    lowerable_file_runs_as_meant();
    let _valid = core.functions();
    let passes = core_fits(alloc, &core);
    let plain = plain_of(alloc, core)?;
    finished(alloc, &plain, passes)
}
