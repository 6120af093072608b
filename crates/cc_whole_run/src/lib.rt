//! Runs programs of the whole small C over an input and an output, for a number of ticks and with a limit of depth and of heap,
//! exactly as they mean.
#![tactic(auto)]

mod machine;
mod run;
mod turn;
mod types;

pub use machine::Machine;
pub use types::{End, Limits, Ran};
