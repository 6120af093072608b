use cc_whole::{CBody, CLocal, CParameter, CStatement, CSwitchItem};
use cc_whole_mean::Target;
use cc_whole_memory::Value;

/// Where a statement runs.
#[derive(Clone, Copy, Debug, PartialEq, Eq)]
pub struct Level {
    /// Functions that may still be entered inside one another.
    pub depth: u32,
    pub in_helper: bool,
}

/// What remains to be done once the statement at hand has ended.
#[derive(Clone, Copy)]
pub enum Mark<'a> {
    /// These statements follow.
    Rest(Level, &'a [CStatement]),
    /// These items of a `switch` follow.
    Items(Level, &'a [CSwitchItem]),
    /// The next turn of a loop begins.
    Turn(Level, &'a CBody),
    /// A `switch` ends.
    Switch,
    /// These locals end, whose blocks stand from this number on.
    Locals(&'a [CLocal], u32),
    /// A function with these parameters comes back: so many blocks end, from this number on.
    Parameters(&'a [CParameter], u32, usize),
    /// The function's result is stored, or dropped.
    Back(Option<Target>),
}

/// How a statement has ended.
#[derive(Clone, Copy, Debug, PartialEq, Eq)]
pub enum Flow {
    /// The next one runs.
    Falls,
    Breaks,
    Continues,
    Returns(Option<Value>),
    /// `exit` was called with this status.
    Exits(i64),
}

/// What is being done.
#[derive(Clone, Copy)]
pub enum Doing<'a> {
    Run(&'a [CStatement]),
    /// Items of a `switch` run, and labels are passed.
    Items(&'a [CSwitchItem]),
    /// A statement has ended.
    Leave(Flow),
}
