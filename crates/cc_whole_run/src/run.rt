ghost use Rattle.std.specs.Prelude.{◌≡◌, IfOk};
ghost use Rattle.cc_whole_memory.specs.declared.act.Act.TheVariants as act;
ghost use Rattle.cc_whole_run.specs.declared.types.End.TheVariants as ended;
ghost use Rattle.cc_whole_run.specs.Run.{Leaves, meant};
ghost use Rattle.cc_whole_run.specs.Going.{Goes, Starts};
ghost use Rattle.cf_streams.specs.Streams.{streams};

use crate::turn::turn;
use crate::types::{End, Limits, Ran};
use cc_whole::{CFunction, CProgram};
use cc_whole_callee::{Callee, callee_named};
use cc_whole_memory::Act;
use cc_whole_start::Start;
use cc_whole_step::{Doing, Flow, Frames, Level, Moment};
use cf_base::{Memory, Sink, Source};
use cf_streams::Tally;
use std::alloc::Global;

/// A program runs.
pub fn run_program<I: Source, O: Sink>(
    alloc: Global,
    program: &CProgram,
    limits: Limits,
    input: &mut I,
    out: &mut O,
) -> Result<Ran, Memory>
    ensures { Leaves (meant program.now limits)
        (streams (I.stream input.old) (O.stream out.old)) (streams (I.stream input.new) (O.stream out.new)) result }
{
    match callee_named(program, b"main".as_slice()) {
        Ok(Callee::Own(main)) => {
            let moment = start(alloc, program, main, limits)?;
            go(moment, input, out)
        }
        Ok(Callee::BuiltIn(_)) => Ok(without_main()),
        Err(_) => Ok(without_main()),
    }
}

/// How a program without `main` ends.
fn without_main() -> Ran
    ensures { result ≡ record { end = ended.Undefined act.A9; entered = 0 } }
{
    Ran {
        end: End::Undefined { act: Act::A9 },
        entered: 0,
    }
}

/// The moment at which `main` begins.
fn start<'a>(
    alloc: Global,
    program: &'a CProgram,
    main: &'a CFunction,
    limits: Limits,
) -> Result<Moment<'a>, Memory>
    ensures { IfOk result (λ moment. Starts program.now main.now limits moment) }
{
    let Start { names, store, next } = Start::new(alloc, program)?;
    let mut moment = Moment {
        alloc,
        program,
        frames: Frames {
            file: names,
            marks: Vec::new(alloc),
        },
        doing: Doing::Leave(Flow::Falls),
        store,
        registered: Vec::new(alloc),
        level: Level {
            depth: limits.depth,
            in_helper: false,
        },
        ticks: limits.ticks,
        heap: u64::from(limits.heap),
        depth: limits.depth,
        status: None,
    };
    moment.begin_main(main, next)?;
    Ok(moment)
}

/// The run goes on from a moment to its end.
fn go<I: Source, O: Sink>(moment: Moment<'_>, input: &mut I, out: &mut O) -> Result<Ran, Memory>
    ensures { Goes moment.entry (streams (I.stream input.old) (O.stream out.old)) (streams (I.stream input.new) (O.stream out.new)) result }
{
    let mut moment = moment;
    let mut tally = Tally {
        entered: 0,
        at_end: false,
    };
    for _ in 0..u64::MAX {
        match turn(&mut moment, input, out, &mut tally) {
            Err(Memory) => return Err(Memory),
            Ok(Some(end)) => {
                return Ok(Ran {
                    end,
                    entered: tally.entered,
                });
            }
            Ok(None) => {}
        }
    }
    Err(Memory)
}
