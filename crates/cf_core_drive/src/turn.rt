ghost use Rattle.std.specs.Prelude.{◌≡◌};
ghost use Rattle.cf_run_tree.specs.declared.program.Program.{Program};
ghost use Rattle.cf_core_run.specs.declared.mark.Doing.TheVariants as doing;
ghost use Rattle.cf_core_objects.specs.Store.{value_of};
ghost use Rattle.cf_core_drive.specs.Run.{streams};
ghost use Rattle.cf_core_drive.specs.Going.{Answers, Turns, Nears, Counts, Puts, run_end, given_byte};

use crate::types::{End, Fault, Tally};
use cf_base::{Failed, Sink, Source};
use cf_core_objects::{Stop, Value};
use cf_core_run::{Doing, Machine, RunEnd, Step};
use cf_run_tree::Program;

/// How a run ends where a step ends it.
fn end_of(end: RunEnd) -> End
    ensures { result ≡ run_end end }
{
    match end {
        RunEnd::Ended(status) => End::Ended(status),
        RunEnd::Ticks => End::Ticks,
        RunEnd::Depth => End::Depth,
    }
}

/// The value of a byte that was taken, or of the end of the input.
fn byte_value<'a>(byte: Option<u8>) -> Value<'a>
    ensures { value_of result ≡ given_byte byte }
{
    match byte {
        None => Value::Number(-1),
        Some(byte) => Value::Number(i64::from(byte)),
    }
}

/// The next byte of the input, or none at its end, behind which it is not asked again.
fn take<I: Source>(input: &mut I, at_end: &mut bool) -> Result<Option<u8>, Failed>
    ensures { Answers (I.stream input.old) (I.stream input.new) at_end.old at_end.new result }
{
    if *at_end {
        return Ok(None);
    }
    let byte = input.next()?;
    *at_end = byte.is_none();
    Ok(byte)
}

/// A function that is entered counts.
fn count(tally: &mut Tally)
    ensures { Counts tally.old tally.new }
{
    tally.entered = tally.entered.saturating_add(1);
}

/// A byte goes to the output. The answer is the end of the run, where that fails.
fn put<O: Sink>(byte: u8, out: &mut O) -> Option<End>
    ensures { Puts byte (O.stream out.old) (O.stream out.new) result }
{
    match out.put(&[byte]) {
        Err(Failed) => Some(End::SinkFault),
        Ok(()) => None,
    }
}

/// A byte that is awaited is taken.
fn ask<I: Source, O: Sink>(
    machine: &mut Machine<'_>,
    input: &mut I,
    out: &O,
    tally: &mut Tally,
) -> Result<Option<End>, Fault>
    requires { machine.old.doing ≡ doing.Asks }
    ensures turns { (p : Program) → Turns p machine.old machine.new (streams (I.stream input.old) (O.stream out.now)) (streams (I.stream input.new) (O.stream out.now)) tally.old tally.new result }
    ensures nearer { (p : Program) → Nears p machine.old machine.new result }
{
    let _ = out;
    match take(input, &mut tally.at_end) {
        Err(Failed) => Ok(Some(End::SourceFault)),
        Ok(byte) => {
            machine.doing = Doing::Gives(byte_value(byte));
            Ok(None)
        }
    }
}

/// A step is done, and what it shows is carried out.
fn advance<'a, I: Source, O: Sink>(
    machine: &mut Machine<'a>,
    program: &'a Program,
    input: &I,
    out: &mut O,
    tally: &mut Tally,
) -> Result<Option<End>, Fault>
    ensures turns { Turns program.now machine.old machine.new (streams (I.stream input.now) (O.stream out.old)) (streams (I.stream input.now) (O.stream out.new)) tally.old tally.new result }
    ensures nearer { (machine.old.doing ≡ doing.Asks → ⊥) → Nears program.now machine.old machine.new result }
{
    let _ = input;
    match machine.step(program) {
        Err(Stop::Act(act)) => Ok(Some(End::Undefined(act))),
        Err(Stop::Malformed) => Err(Fault::Malformed),
        Err(Stop::Memory) => Err(Fault::Memory),
        Ok(Step::On) => Ok(None),
        Ok(Step::Ends(end)) => Ok(Some(end_of(end))),
        Ok(Step::Enters(_)) => {
            count(tally);
            Ok(None)
        }
        Ok(Step::Puts(byte)) => Ok(put(byte, out)),
    }
}

/// A byte that is awaited is taken, or a step is done.
pub(crate) fn turn<'a, I: Source, O: Sink>(
    machine: &mut Machine<'a>,
    program: &'a Program,
    input: &mut I,
    out: &mut O,
    tally: &mut Tally,
) -> Result<Option<End>, Fault>
    ensures turns { Turns program.now machine.old machine.new (streams (I.stream input.old) (O.stream out.old)) (streams (I.stream input.new) (O.stream out.new)) tally.old tally.new result }
    ensures nearer { Nears program.now machine.old machine.new result }
{
    match &machine.doing {
        Doing::Asks => ask(machine, input, out, tally),
        _ => advance(machine, program, input, out, tally),
    }
}
