use crate::programs::{calls_in_turns, only_turns};
use cc_whole_run::{Limits, Machine, Ran};
use cf_base::{MemSink, MemSource, Memory};
use std::alloc::Global;

/// Runs the program that calls, or the one that only turns, for so many ticks. It takes and puts nothing.
pub fn spend(alloc: Global, calls: bool, ticks: u64) -> Result<Ran, Memory> {
    let program = if calls {
        calls_in_turns(alloc)?
    } else {
        only_turns(alloc)?
    };
    let limits = Limits {
        ticks,
        depth: 1,
        heap: 0,
    };
    let mut input = MemSource::new(Vec::new(alloc), Vec::new(alloc));
    let mut out = MemSink::new(alloc, 0, Vec::new(alloc))?;
    Machine::new(alloc, &program, limits).run(&mut input, &mut out)
}
