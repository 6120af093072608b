//! Runs of programs within limits, compared with what they have to do.

use crate::reader::{Wrong, read_items};
use cc_whole::{CProgram, CUnit};
use cc_whole_program::ValidProgram;
use cc_whole_run::{End, Limits, Machine, Ran};
use cc_whole_valid::is_valid;
use cf_base::{MemSink, MemSource};
use std::alloc::Global;
use std::process::Abort;
use std::test::Fail;

/// The library functions, and the head of `main` with its locals.
const LIBRARY: &str =
    "int putchar(int c); int getchar(void); void exit(int s); char *malloc(unsigned n); void free(char *p); int atexit(__f f);";

const HEAD: &str = "int main(void) { int x; int y; char c; char *p; char *q; __f f; int a[2];";

/// A short run.
pub const SHORT: Limits = Limits {
    ticks: 100,
    depth: 4,
    heap: 64,
};

/// A long run.
pub const LONG: Limits = Limits {
    ticks: 1_000_000,
    depth: 100,
    heap: 4096,
};

/// What a run has to do.
#[derive(Clone, Copy)]
pub struct Want<'a> {
    /// The bytes that it puts.
    pub out: &'a [u8],
    /// How many functions it enters.
    pub entered: u64,
    pub end: End,
}

/// The program of items and a `main` with these statements, where it is valid.
fn program(alloc: Global, items: &str, main: &str) -> Result<ValidProgram, Wrong> {
    let text = format!(in alloc; "{LIBRARY} {items} {HEAD} {main} }}")?;
    let items = read_items(alloc, text.as_str())?;
    match ValidProgram::new(alloc, CProgram { items })? {
        Some(program) => Ok(program),
        None => Err(Wrong::Invalid),
    }
}

/// Runs the program of items and a `main` with these statements. Its input is `hi`.
pub fn runs(
    rt: &impl Abort,
    alloc: Global,
    limits: Limits,
    items: &str,
    main: &str,
    want: Want<'_>,
) -> Result<(), Fail> {
    let program = program(alloc, items, main)?;
    let machine = Machine::new(alloc, program.tree(), limits);
    let mut input = MemSource::new(b"hi".as_slice().to_vec(alloc)?, Vec::new(alloc));
    let mut out = MemSink::new(alloc, 1000, Vec::new(alloc))?;
    let ran = machine.run(&mut input, &mut out)?;
    let wanted = Ran {
        end: want.end,
        entered: want.entered,
    };
    assert_eq!(rt; ran, wanted, "{main}");
    assert_eq!(rt; out.bytes(), want.out, "{main}");
    Ok(())
}

/// The same in a short run that puts nothing and enters no function.
pub fn ends(rt: &impl Abort, alloc: Global, items: &str, main: &str, end: End) -> Result<(), Fail> {
    let want = Want {
        out: b"".as_slice(),
        entered: 0,
        end,
    };
    runs(rt, alloc, SHORT, items, main, want)
}

/// Whether the unit of this text is valid. The library functions are declared before it.
pub fn valid(alloc: Global, text: &str) -> Result<bool, Wrong> {
    let text = format!(in alloc; "{LIBRARY} {text}")?;
    let items = read_items(alloc, text.as_str())?;
    Ok(is_valid(alloc, &CUnit { version: 1, items })?)
}
