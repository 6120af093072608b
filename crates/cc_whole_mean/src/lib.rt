//! The meaning of programs of the whole small C, in `specs/`: from a program, an input, limits of heap and depth and a
//! bound of ticks to a trace and an end. A runner holds the types here as they are there.
#![tactic(auto)]

mod named;

pub use named::{Named, Shape, Target};
