use cc_whole_memory::Act;

/// What a run may use.
#[derive(Clone, Copy, Debug, PartialEq, Eq)]
pub struct Limits {
    /// Functions entered and turns of loops begun.
    pub ticks: u64,
    /// Functions entered inside one another.
    pub depth: u32,
    /// Bytes of the heap, of which each block takes at least 8.
    pub heap: u32,
}

/// How a run ends.
#[derive(Clone, Copy, Debug, PartialEq, Eq)]
pub enum End {
    Ended { status: i64 },
    /// No tick is left.
    Ticks,
    /// No level of depth is left.
    Depth,
    Undefined { act: Act },
    /// A call on the input failed.
    SourceFault,
    /// A call on the output failed.
    SinkFault,
}

/// How a run ended, and how many functions were entered.
#[derive(Clone, Copy, Debug, PartialEq, Eq)]
pub struct Ran {
    pub end: End,
    pub entered: u64,
}
