//! Runs one of two programs of the whole small C until its ticks are spent: `cc_whole_bench turns TICKS` one whose `main` turns a
//! loop, `cc_whole_bench calls TICKS` one whose loop calls a function each time. It says how the run ended.
#![tactic(auto)]

mod programs;
mod run;

use crate::run::spend;
use cf_base::Memory;
use std::{env, io};

fn out_of_memory(_error: Memory) -> io::Error {
    io::Error::from(io::ErrorKind::OutOfMemory)
}

fn main(rt: HostRuntime) -> io::Result<()> {
    let alloc = rt.alloc();
    let mut words = env::args(&rt)?.skip(1);
    let calls = match words.next() {
        Some(word) => word.as_str() == "calls",
        None => false,
    };
    let ticks = match words.next() {
        Some(word) => word.as_str().parse().unwrap_or(0),
        None => 0,
    };
    let ran = spend(alloc, calls, ticks).map_err(out_of_memory)?;
    println!(rt; "{ran:?}")
}
