ghost use Rattle.std.specs.Prelude.{◌≡◌, ◌⊎◌};
ghost use Rattle.cf_streams.specs.Streams.{streams, StillTold};
ghost use Rattle.cfront.specs.Run.{outcome_of, RunLeaves, FlushDone, FlushFailed};

use crate::outcome::Outcome;
use cc_whole::CProgram;
use cc_whole_run::{End, Limits, Machine};
use cf_base::{Failed, Memory, Sink, Source};
use std::alloc::Global;

/// Runs a program and then flushes its output.
pub fn run_program<I: Source, O: Sink>(
    alloc: Global,
    program: &CProgram,
    limits: Limits,
    input: &mut I,
    out: &mut O,
) -> Result<Outcome, Memory>
    ensures leaves { RunLeaves program.now limits (streams (I.stream input.old) (O.stream out.old))
        (streams (I.stream input.new) (O.stream out.new)) result }
    ensures told { StillTold (streams (I.stream input.old) (O.stream out.old))
        (streams (I.stream input.new) (O.stream out.new)) }
{
    let machine = Machine::new(alloc, program, limits);
    let ran = machine.run(input, out)?;
    match ran.end {
        End::SinkFault => Ok(Outcome::SinkFault),
        end => Ok(flushed(end, out)),
    }
}

/// Flushes the output behind a run that ended so.
fn flushed<O: Sink>(end: End, out: &mut O) -> Outcome
    ensures { FlushDone (outcome_of end) result (O.stream out.old) (O.stream out.new)
        ⊎ FlushFailed result (O.stream out.old) (O.stream out.new) }
{
    match out.flush() {
        Ok(()) => outcome_for(end),
        Err(Failed) => Outcome::SinkFault,
    }
}

/// The answer for an end of a run.
fn outcome_for(end: End) -> Outcome
    ensures { result ≡ outcome_of end }
{
    match end {
        End::Ended { status } => Outcome::Ended { status },
        End::Ticks => Outcome::Ticks,
        End::Depth => Outcome::Depth,
        End::Undefined { act } => Outcome::Undefined { act },
        End::SourceFault => Outcome::SourceFault,
        End::SinkFault => Outcome::SinkFault,
    }
}
