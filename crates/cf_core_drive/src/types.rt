use cf_core_objects::Integer;
use thiserror::Error;

/// How a run ends.
#[derive(Clone, Copy, Debug, PartialEq, Eq)]
pub enum End {
    /// With a status.
    Ended(Integer),
    /// No tick is left.
    Ticks,
    /// No level of depth is left.
    Depth,
    /// In an act that has no meaning, by its number from 1 to 16.
    Undefined(u8),
    /// A call on the input failed.
    SourceFault,
    /// A call on the output failed.
    SinkFault,
}

/// How a run ended, and how many functions were entered: at most the greatest `u64`.
#[derive(Clone, Copy, Debug, PartialEq, Eq)]
pub struct Driven {
    pub end: End,
    pub entered: u64,
}

/// Why a run was given up.
#[derive(Debug, Drop, Error)]
pub enum Fault {
    /// The core is none that elaboration makes.
    #[error("the core is malformed")]
    Malformed,
    #[error("out of memory")]
    Memory,
}

/// What is counted and seen during a run.
#[derive(Clone, Copy, Debug, PartialEq, Eq)]
pub(crate) struct Tally {
    /// Functions that were entered.
    pub entered: u64,
    /// The input's end was met; it is not asked again.
    pub at_end: bool,
}
