ghost use Rattle.std.specs.Prelude.{◌≡◌, map, string_bytes};
ghost use Rattle.cfront.specs.Answer.{Keeps};
ghost use Rattle.cfront.specs.Outside.{outside, KeepTelling};
ghost use Rattle.cfront.specs.Steps.{WordsLeave};
ghost use Rattle.cfront.specs.Words.{default_limits};

use crate::answer::Answer;
use crate::go::gone;
use crate::outcome::Outcome;
use crate::words::{file_names, go_file};
use crate::writing::finished;
use cc_whole_run::Limits;
use cf_base::{Files, Memory, Sink, Source};
use std::alloc::Global;

/// The limits of a run that no option changes: 10,000,000 ticks, 1,024 entered functions, 2^20 bytes of heap.
pub const DEFAULT_LIMITS: Limits = Limits {
    ticks: 10_000_000,
    depth: 1024,
    heap: 1 << 20,
};

/// Does the job of the words behind the program's name, and writes the last line of its answer.
pub fn cfront<F: Files, I: Source, O: Sink, E: Sink>(
    alloc: Global,
    words: &Vec<String>,
    files: &mut F,
    input: &mut I,
    out: &mut O,
    err: &mut E,
) -> Result<Outcome, Memory>
    ensures { Keeps (map string_bytes words.now.items) default_limits
        (outside (F.disk files.old) (I.stream input.old) (O.stream out.old) (E.stream err.old))
        (outside (F.disk files.new) (I.stream input.new) (O.stream out.new) (E.stream err.new)) result }
{
    match answered(alloc, words, files, input, out, err) {
        Ok(answer) => Ok(finished(file_names(words), answer, err)),
        Err(Memory) => Err(Memory),
    }
}

/// Does the job, all but the last line.
fn answered<F: Files, I: Source, O: Sink, E: Sink>(
    alloc: Global,
    words: &Vec<String>,
    files: &mut F,
    input: &mut I,
    out: &mut O,
    err: &mut E,
) -> Result<Answer, Memory>
    ensures leaves { WordsLeave (map string_bytes words.now.items) default_limits
        (outside (F.disk files.old) (I.stream input.old) (O.stream out.old) (E.stream err.old))
        (outside (F.disk files.new) (I.stream input.new) (O.stream out.new) (E.stream err.new)) result }
    ensures told { KeepTelling (outside (F.disk files.old) (I.stream input.old) (O.stream out.old) (E.stream err.old))
        (outside (F.disk files.new) (I.stream input.new) (O.stream out.new) (E.stream err.new)) }
{
    match go_file(words) {
        Some(file) => gone(alloc, DEFAULT_LIMITS, file.as_str(), files, input, out, err),
        None => Ok(Answer::plain(Outcome::Usage)),
    }
}
