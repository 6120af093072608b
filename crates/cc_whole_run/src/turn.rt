ghost use Rattle.std.specs.Prelude.{◌≡◌};
ghost use Rattle.cc_whole_run.specs.Going.{Turns, run_end};
ghost use Rattle.cf_streams.specs.Streams.{streams};

use crate::types::End;
use cc_whole_step::{End as Ended, Moment, Shown, Step, Stop};
use cf_base::{Failed, Memory, Sink, Source};
use cf_streams::{Tally, take};

/// How a run ends where a step ends it.
fn end_of(end: Ended) -> End
    ensures { result ≡ run_end end }
{
    match end {
        Ended::Ended { status } => End::Ended { status },
        Ended::Ticks => End::Ticks,
        Ended::Depth => End::Depth,
    }
}

/// One step, and what it takes and shows.
pub fn turn<I: Source, O: Sink>(
    moment: &mut Moment<'_>,
    input: &mut I,
    out: &mut O,
    tally: &mut Tally,
) -> Result<Option<End>, Memory>
    ensures { Turns moment.old moment.new (streams (I.stream input.old) (O.stream out.old)) (streams (I.stream input.new) (O.stream out.new)) tally.old tally.new result }
{
    match moment.step() {
        Err(Stop::Memory) => Err(Memory),
        Err(Stop::Act(act)) => Ok(Some(End::Undefined { act })),
        Ok(Step::On) => Ok(None),
        Ok(Step::Ends(end)) => Ok(Some(end_of(end))),
        Ok(Step::Shows(Shown::Enter(_))) => {
            tally.entered = tally.entered.saturating_add(1);
            Ok(None)
        }
        Ok(Step::Shows(Shown::Out(byte))) => match out.put(&[byte]) {
            Err(Failed) => Ok(Some(End::SinkFault)),
            Ok(()) => Ok(None),
        },
        Ok(Step::Takes) => match take(input, &mut tally.at_end) {
            Err(Failed) => Ok(Some(End::SourceFault)),
            Ok(byte) => {
                moment.answer(byte);
                Ok(None)
            }
        },
    }
}
