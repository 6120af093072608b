//! The text of a plain file.

ghost use Rattle.std.specs.Prelude.{◌≡◌, []};
ghost use Rattle.cf_lower_types.specs.Ordered.{IsOrdered};
ghost use Rattle.cf_plain.specs.View.{file_of};
ghost use Rattle.cf_compile.specs.Steps.{Writes};

use crate::compiled::Compiled;
use crate::fault::Fault;
use cc_whole_print::print;
use cf_lower_unit::lower;
use cf_plain::PlainUnit;
use std::alloc::Global;

/// The unit that a plain file is lowered to, with its text and this bound of frames.
pub fn written(alloc: Global, plain: &PlainUnit, frame: u64) -> Result<Compiled, Fault>
    requires ordered { IsOrdered plain.now.types }
    requires no_classes { plain.now.classes.defined ≡ [] }
    ensures { Writes (file_of plain.now) frame result }
{
    let unit = lower(alloc, plain)?;
    let text = print(alloc, &unit)?;
    Ok(Compiled { unit, text, frame })
}
