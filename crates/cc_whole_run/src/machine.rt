ghost use Rattle.std.specs.Prelude.{◌≡◌, IfOk};
ghost use Rattle.cc_whole_run.specs.Run.{Leaves, meant};
ghost use Rattle.cf_streams.specs.Streams.{streams};

use crate::run::run_program;
use crate::types::{Limits, Ran};
use cc_whole::CProgram;
use cf_base::{Memory, Sink, Source};
use std::alloc::Global;

/// Runs one program.
#[derive(Drop)]
pub struct Machine<'a> {
    pub program: &'a CProgram,
    pub limits: Limits,
    alloc: Global,
}

impl<'a> Machine<'a> {
    /// A machine for this program within these limits.
    pub fn new(alloc: Global, program: &'a CProgram, limits: Limits) -> Machine<'a>
        ensures program { result.program.now ≡ program.now }
        ensures limits { result.limits ≡ limits }
    {
        Machine {
            program,
            limits,
            alloc,
        }
    }

    /// Runs the program, exactly as it means: the bytes that it takes come from `input`, and those that it puts go to `out`, one by
    /// one. Where a call on one of them fails the run ends there. Want of memory may come anywhere.
    pub fn run<I: Source, O: Sink>(self, input: &mut I, out: &mut O) -> Result<Ran, Memory>
        ensures { Leaves (meant self.entry.program.now self.entry.limits)
            (streams (I.stream input.old) (O.stream out.old)) (streams (I.stream input.new) (O.stream out.new)) result }
    {
        run_program(self.alloc, self.program, self.limits, input, out)
    }
}
