ghost use Rattle.std.specs.Prelude.{◌≡◌, ◌≤◌, ◌<◌, ◌^◌, None, false, length, map, string_bytes, vec_len};
ghost use Rattle.cfront.specs.Answer.{GoKeeps};
ghost use Rattle.cfront.specs.LastLine.{file_name};
ghost use Rattle.cfront.specs.Outside.{outside, KeepTelling};
ghost use Rattle.cf_streams.specs.Streams.{streams, StillTold};
ghost use Rattle.cfront.specs.Steps.{GoLeaves, StartedLeaves};

use crate::answer::{Answer, Stop};
use crate::outcome::Outcome;
use crate::running::run_program;
use crate::starting::may_start;
use crate::translating::{Program, translated};
use crate::writing::finished;
use cc_whole_run::Limits;
use cf_base::{Files, Memory, Sink, Source};
use std::alloc::Global;

/// Translates a file, writes its text beside it, links its unit and runs it, all but the last line.
pub fn gone<F: Files, I: Source, O: Sink, E: Sink>(
    alloc: Global,
    limits: Limits,
    file: &str,
    files: &mut F,
    input: &mut I,
    out: &mut O,
    err: &mut E,
) -> Result<Answer, Memory>
    ensures leaves { GoLeaves file.now limits (outside (F.disk files.old) (I.stream input.old) (O.stream out.old) (E.stream err.old))
        (outside (F.disk files.new) (I.stream input.new) (O.stream out.new) (E.stream err.new)) result }
    ensures told { KeepTelling (outside (F.disk files.old) (I.stream input.old) (O.stream out.old) (E.stream err.old))
        (outside (F.disk files.new) (I.stream input.new) (O.stream out.new) (E.stream err.new)) }
{
    match translated(alloc, file, files) {
        Ok(program) => started(alloc, &program, limits, input, out),
        Err(Stop::Answer(answer)) => Ok(answer),
        Err(Stop::Memory) => Err(Memory),
    }
}

/// Runs a program, where the limits let it.
fn started<I: Source, O: Sink>(
    alloc: Global,
    program: &Program,
    limits: Limits,
    input: &mut I,
    out: &mut O,
) -> Result<Answer, Memory>
    requires frame { program.now.frame ≤ 65536 }
    ensures leaves { StartedLeaves program.now limits (streams (I.stream input.old) (O.stream out.old)) (streams (I.stream input.new) (O.stream out.new)) result }
    ensures told { StillTold (streams (I.stream input.old) (O.stream out.old)) (streams (I.stream input.new) (O.stream out.new)) }
{
    match may_start(program, limits) {
        Ok(()) => match run_program(alloc, &program.program, limits, input, out) {
            Ok(outcome) => Ok(Answer::plain(outcome)),
            Err(Memory) => Err(Memory),
        },
        Err(outcome) => Ok(Answer::plain(outcome)),
    }
}

/// Does `go` within these limits. There is one name, no trace is shown, and no program is written yet.
pub fn go_with<F: Files, I: Source, O: Sink, E: Sink>(
    alloc: Global,
    limits: Limits,
    trace: bool,
    prog: Option<&str>,
    names: &Vec<String>,
    files: &mut F,
    input: &mut I,
    out: &mut O,
    err: &mut E,
) -> Result<Outcome, Memory>
    requires one_name { vec_len names.now ≡ 1 }
    requires no_trace { trace ≡ false }
    requires no_program { prog ≡ None }
    requires ticks { limits.ticks ≤ 2 ^ 40 }
    requires some_depth { 1 ≤ limits.depth }
    requires depth { limits.depth ≤ 65536 }
    requires heap { limits.heap ≤ 2 ^ 22 }
    ensures { GoKeeps (map string_bytes names.now.items) limits
        (outside (F.disk files.old) (I.stream input.old) (O.stream out.old) (E.stream err.old))
        (outside (F.disk files.new) (I.stream input.new) (O.stream out.new) (E.stream err.new)) result }
{
    let _ = trace;
    let _ = prog;
    let names = names.as_slice();
    match gone(alloc, limits, first_name(names), files, input, out, err) {
        Ok(answer) => Ok(finished(names, answer, err)),
        Err(Memory) => Err(Memory),
    }
}

/// The first of these names.
fn first_name(names: &[String]) -> &str
    requires { 0 < length names.now }
    ensures { result.now ≡ file_name (map string_bytes names.now) 1 }
{
    names[0].as_str()
}
