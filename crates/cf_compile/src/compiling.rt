//! Translates a file.

ghost use Rattle.cf_compile.specs.Compiles.{Compiles};
ghost use Rattle.cf_compile.specs.Steps.{HasCore};

use crate::compiled::Compiled;
use crate::fault::{Fault, unbuilt_at};
use crate::making::built;
use cf_core::CoreUnit;
use cf_first::first;
use cf_sequence_built::unbuilt;
use std::alloc::Global;

/// The core of a file, which is valid, or why it has none.
fn core_of(alloc: Global, bytes: &[u8]) -> Result<CoreUnit, Fault>
    ensures { HasCore bytes.now result }
{
    match first(alloc, bytes) {
        Ok(core) => Ok(core),
        Err(cf_first::Fault::Broken(broken)) => Err(Fault::Broken(broken)),
        Err(cf_first::Fault::Limit(limit)) => Err(Fault::Limit(limit)),
        Err(cf_first::Fault::Memory) => Err(Fault::Memory),
    }
}

/// The C unit of a file and its text, or the first thing in the way: that the file has no core, a construct that sequencing does not take, the frame of a
/// function that may pass the limit, or what lowering asks and the file does not have.
///
/// It takes time and memory by the size of the file and of its text; want of memory may come anywhere.
pub fn compile(alloc: Global, bytes: &[u8]) -> Result<Compiled, Fault>
    ensures { Compiles bytes.now result }
{
    let core = core_of(alloc, bytes)?;
    match unbuilt(&core) {
        Some(at) => Err(unbuilt_at(at)),
        None => built(alloc, core),
    }
}
