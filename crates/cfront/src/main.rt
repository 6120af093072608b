//! cfront: a translator from the C++ of 1990 to a small C, which links the C texts and runs them.
//!
//! `top::cfront` is the top call, with the whole statement of what the program does; `go::go_with` is its job `go` with limits of
//! the caller's. `main` gives the top call the real files and streams.
#![tactic(auto)]

mod answer;
mod disk_files;
#[cfg(test)]
mod failing_tests;
mod go;
mod last_line;
mod laws;
#[cfg(test)]
mod limit_tests;
mod outcome;
mod position;
mod running;
mod starting;
mod streams;
#[cfg(test)]
mod tests;
mod top;
mod translating;
mod words;
mod writing;

use crate::disk_files::DiskFiles;
use crate::outcome::status;
use crate::streams::{StreamSink, StreamSource};
use crate::top::cfront;
use cf_base::Memory;
use std::process::ExitCode;
use std::{env, io};

/// The words behind the program's name. Words of which one is no UTF-8 are no job; no words stand for them.
fn job_words(rt: &HostRuntime) -> Result<Vec<String>, Memory> {
    let alloc = rt.alloc();
    match env::args(rt) {
        Ok(args) => Ok(args.skip(1).collect(alloc)?),
        Err(error) if error.kind() == io::ErrorKind::OutOfMemory => Err(Memory),
        Err(_) => Ok(Vec::new(alloc)),
    }
}

fn main(rt: HostRuntime) -> ExitCode {
    let alloc = rt.alloc();
    let mut files = DiskFiles::new(&rt, alloc);
    let mut input = StreamSource::new(rt.stdin());
    let mut out = StreamSink::new(rt.stdout());
    let mut err = StreamSink::new(rt.stderr());
    let answer = match job_words(&rt) {
        Ok(words) => cfront(alloc, &words, &mut files, &mut input, &mut out, &mut err),
        Err(Memory) => Err(Memory),
    };
    if answer.is_err() {
        // The status tells it, where this line can't be told.
        let _ = eprintln!(rt; "cfront: out of memory");
    }
    ExitCode::from(status(&answer))
}
