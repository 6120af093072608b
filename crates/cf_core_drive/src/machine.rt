ghost use Rattle.std.specs.Prelude.{ℕ, ◌≡◌};
ghost use Rattle.cf_core.specs.FromTypes.{Tables};
ghost use Rattle.cf_core_drive.specs.Run.{Leaves, streams};
ghost use Rattle.cf_core_drive.specs.Going.{Goes, Turns, Spends};

use crate::turn::turn;
use crate::types::{Driven, End, Fault, Tally};
use cf_base::{Sink, Source};
use cf_core_run::{Limits, Machine, start};
use cf_run_tree::Program;
use std::alloc::Global;

/// Runs a program exactly as it means: the bytes that it takes come from `input`, and those that it puts go to `out`, one by one.
/// Where a call on one of them fails the run ends there. Want of memory may come anywhere.
pub fn drive<'a, I: Source, O: Sink>(
    alloc: Global,
    program: &'a Program,
    limits: Limits,
    input: &mut I,
    out: &mut O,
) -> Result<Driven, Fault>
    ensures { (T : Tables) (heap : ℕ) → Leaves T program.now limits heap
        (streams (I.stream input.old) (O.stream out.old)) (streams (I.stream input.new) (O.stream out.new)) result }
{
    let machine = start(alloc, limits);
    go(machine, program, input, out)
}

/// The run goes on from a state to its end.
fn go<'a, I: Source, O: Sink>(
    machine: Machine<'a>,
    program: &'a Program,
    input: &mut I,
    out: &mut O,
) -> Result<Driven, Fault>
    ensures { Goes program.now machine.entry (streams (I.stream input.old) (O.stream out.old)) (streams (I.stream input.new) (O.stream out.new)) result }
{
    let mut machine = machine;
    let mut tally = Tally {
        entered: 0,
        at_end: false,
    };
    'ticks: loop {
        match turns(&mut machine, program, input, out, &mut tally) {
            Err(fault) => return Err(fault),
            Ok(None) => {}
            Ok(Some(end)) => {
                return Ok(Driven {
                    end,
                    entered: tally.entered,
                });
            }
        }
    }
}

/// Turns are done until a tick is spent or the run ends.
fn turns<'a, I: Source, O: Sink>(
    machine: &mut Machine<'a>,
    program: &'a Program,
    input: &mut I,
    out: &mut O,
    tally: &mut Tally,
) -> Result<Option<End>, Fault>
    ensures turns { Turns program.now machine.old machine.new (streams (I.stream input.old) (O.stream out.old)) (streams (I.stream input.new) (O.stream out.new)) tally.old tally.new result }
    ensures spends { Spends machine.old machine.new result }
{
    let ticks = machine.ticks;
    'steps: loop {
        match turn(machine, program, input, out, tally) {
            Err(fault) => return Err(fault),
            Ok(Some(end)) => return Ok(Some(end)),
            Ok(None) => {
                if machine.ticks < ticks {
                    return Ok(None);
                }
            }
        }
    }
}
