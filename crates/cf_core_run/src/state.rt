use crate::mark::{Doing, Mark};
use cf_core_objects::{Entered, Integer, Objects};
use std::alloc::Global;

/// A run at a moment.
#[derive(Drop)]
pub struct Machine<'a> {
    pub alloc: Global,
    pub stack: Vec<Mark<'a>>,
    pub doing: Doing<'a>,
    pub entered: Entered<'a>,
    pub objects: Objects<'a>,
    /// How deep functions and turns may still be begun inside what is being done.
    pub fuel: u64,
    pub ticks: u64,
}

/// What a run shows: a function is entered, a byte is taken from the input or its end met, a byte is put.
#[derive(Clone, Copy, Debug, PartialEq, Eq)]
pub enum Event<'a> {
    Enter(&'a [u8]),
    In(Option<u8>),
    Out(u8),
}

/// How a run ends that comes to no act without a meaning.
#[derive(Clone, Copy)]
pub enum RunEnd {
    Ended(Integer),
    Ticks,
    Depth,
}

/// What a step comes to.
#[derive(Clone, Copy)]
pub enum Step<'a> {
    On,
    /// A function of this link name is entered.
    Enters(&'a [u8]),
    /// A byte is put.
    Puts(u8),
    Ends(RunEnd),
}

/// What a run may use.
#[derive(Clone, Copy)]
pub struct Limits {
    /// Functions entered and turns of loops begun.
    pub ticks: u64,
    /// Functions entered inside one another.
    pub depth: u32,
}

/// How a run ends.
#[derive(Clone, Copy, Debug, PartialEq, Eq)]
pub enum End {
    /// With a status.
    Ended(Integer),
    /// No tick was left.
    Ticks,
    /// No level of depth was left.
    Depth,
    /// In an act that has no meaning, by its number from 1 to 16.
    Undefined(u8),
}

/// How a run ended, and what it showed.
#[derive(Drop)]
pub struct Ran<'a> {
    pub end: End,
    pub trace: Vec<Event<'a>>,
}

/// The input that is left, and what was shown so far.
#[derive(Drop)]
pub struct Seen<'a> {
    pub rest: &'a [u8],
    pub trace: Vec<Event<'a>>,
}
