ghost use Rattle.std.specs.Prelude.{ℕ};
ghost use Rattle.cf_core_drive.specs.Run.{streams};
ghost use Rattle.cf_core_go.specs.Runs.{Runs};

use crate::fault::UnitFault;
use cf_base::{Sink, Source};
use cf_core::CoreUnit;
use cf_core_drive::{Driven, drive};
use cf_core_load::load;
use cf_core_run::Limits;
use std::alloc::Global;

/// Runs a file alone, exactly as it means: the bytes that it takes come from `input`, and those that it puts go to `out`, one by one. Where a call
/// on one of them fails the run ends there.
///
/// The fault of a file that the plain program has no form for is that of [`load`], and comes before anything is taken or put. Want of memory may
/// come anywhere.
pub fn run_unit<I: Source, O: Sink>(
    alloc: Global,
    unit: &CoreUnit,
    limits: Limits,
    input: &mut I,
    out: &mut O,
) -> Result<Driven, UnitFault>
    ensures { (heap : ℕ) → Runs unit.now limits heap
        (streams (I.stream input.old) (O.stream out.old)) (streams (I.stream input.new) (O.stream out.new)) result }
{
    match load(alloc, unit) {
        Err(fault) => Err(UnitFault::Load(fault)),
        Ok(program) => match drive(alloc, &program, limits, input, out) {
            Err(fault) => Err(UnitFault::Run(fault)),
            Ok(driven) => Ok(driven),
        },
    }
}
