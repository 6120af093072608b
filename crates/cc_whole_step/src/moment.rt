use crate::frames::Frames;
use crate::mark::{Doing, Level};
use cc_whole::CProgram;
use cc_whole_memory::Store;
use std::alloc::Global;

/// A moment of a run.
#[derive(Drop)]
pub struct Moment<'a> {
    pub alloc: Global,
    pub program: &'a CProgram,
    pub frames: Frames<'a>,
    pub doing: Doing<'a>,
    pub store: Store,
    /// What `atexit` registered and is not yet called, the newest last.
    pub registered: Vec<usize>,
    pub level: Level,
    pub ticks: u64,
    /// Bytes of the heap's limit that no live charge takes.
    pub heap: u64,
    /// Functions that may be entered inside one another.
    pub depth: u32,
    /// The status, once `main` has ended.
    pub status: Option<i64>,
}

/// What a step shows.
#[derive(Clone, Copy)]
pub enum Shown<'a> {
    Enter(&'a [u8]),
    Out(u8),
}

/// How a run ends but by an act.
#[derive(Clone, Copy, Debug, PartialEq, Eq)]
pub enum End {
    Ended { status: i64 },
    /// No tick is left.
    Ticks,
    /// No level of depth is left.
    Depth,
}

/// What a step comes to.
#[derive(Clone, Copy)]
pub enum Step<'a> {
    On,
    Shows(Shown<'a>),
    /// The next byte of the input is taken, and is what returns.
    Takes,
    Ends(End),
}
