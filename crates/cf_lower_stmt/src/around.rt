//! The loops and switches around a statement.

/// How control leaves a statement for the loop or switch around it.
#[derive(Clone, Copy, Debug, PartialEq, Eq)]
pub enum Way {
    /// There is none around it.
    Nowhere,
    Break,
    Continue,
    /// With the flag of this number set, by a `break`.
    Flagged(u32),
}

/// What is around a statement.
#[derive(Clone, Copy, Debug, PartialEq, Eq)]
pub struct Around {
    /// How many flags are in use.
    pub depth: u32,
    /// What leaves the loop or switch.
    pub leaving: Way,
    /// What goes on with the loop.
    pub going_on: Way,
}
