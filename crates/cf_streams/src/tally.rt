/// What is counted and seen during a run.
#[derive(Clone, Copy, Debug, PartialEq, Eq)]
pub struct Tally {
    /// Functions that were entered: at most the greatest `u64`.
    pub entered: u64,
    /// The input's end was met; it is not asked again.
    pub at_end: bool,
}
