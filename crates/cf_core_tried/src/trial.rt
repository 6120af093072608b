//! Runs of files, compared with what they have to do.

use crate::file::File;
use cf_core_objects::{Integer, Stop};
use cf_core_run::{End, Event, Limits, run};
use cf_run_tree::Program;
use std::alloc::{AllocError, Global};
use std::process::Abort;
use std::test::Fail;

/// Enough for the rows that do not count ticks or depth.
pub const LONG: Limits = Limits {
    ticks: 99,
    depth: 9,
};

/// An event: `(f)` for a function that is entered, `<a` for a byte that is taken, `<` for the end of the input, `>a` for a byte that is put.
fn write(text: &mut Vec<u8>, event: Event<'_>) -> Result<(), AllocError> {
    match event {
        Event::Enter(name) => {
            text.push(b'(')?;
            text.extend_from_slice(name)?;
            text.push(b')')?;
        }
        Event::In(None) => text.push(b'<')?,
        Event::In(Some(byte)) => {
            text.push(b'<')?;
            text.push(byte)?;
        }
        Event::Out(byte) => {
            text.push(b'>')?;
            text.push(byte)?;
        }
    }
    Ok(())
}

/// Events in order.
fn text(alloc: Global, trace: &[Event<'_>]) -> Result<Vec<u8>, AllocError> {
    let mut text = Vec::new(alloc);
    for event in trace {
        write(&mut text, *event)?;
    }
    Ok(text)
}

/// How a run ended, and its events.
#[derive(Drop)]
struct Outcome {
    trace: Vec<u8>,
    end: End,
}

fn outcome_of<'a>(
    alloc: Global,
    program: &'a Program,
    limits: Limits,
    input: &'a [u8],
) -> Result<Outcome, Stop> {
    let ran = run(alloc, program, limits, input)?;
    let trace = text(alloc, ran.trace.as_slice())?;
    Ok(Outcome {
        trace,
        end: ran.end,
    })
}

/// A run of this file within these limits shows these events, and no others, and comes to this end.
pub fn does(
    rt: &impl Abort,
    file: File,
    limits: Limits,
    input: &[u8],
    trace: &[u8],
    end: End,
) -> Result<(), Fail> {
    let alloc = file.alloc();
    let program = file.whole()?;
    let outcome = outcome_of(alloc, &program, limits, input)?;
    assert!(rt; outcome.trace.as_slice() == trace);
    assert!(rt; outcome.end == end);
    Ok(())
}

/// A run without input does so.
pub fn runs(
    rt: &impl Abort,
    file: File,
    limits: Limits,
    trace: &[u8],
    end: End,
) -> Result<(), Fail> {
    does(rt, file, limits, b"".as_slice(), trace, end)
}

/// A long run without input does so.
pub fn comes_to(rt: &impl Abort, file: File, trace: &[u8], end: End) -> Result<(), Fail> {
    runs(rt, file, LONG, trace, end)
}

/// A run of this file has no meaning: elaboration makes no such core.
pub fn has_none(rt: &impl Abort, file: File) -> Result<(), Fail> {
    let alloc = file.alloc();
    let program = file.whole()?;
    let stopped = match outcome_of(alloc, &program, LONG, b"".as_slice()) {
        Err(stop) => stop == Stop::Malformed,
        Ok(_) => false,
    };
    assert!(rt; stopped);
    Ok(())
}

/// With this status.
pub fn ended(status: i64) -> End {
    End::Ended(Integer::new(status))
}
