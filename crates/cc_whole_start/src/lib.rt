//! The start of a run of the small C, exactly as it means: blocks of locals and arguments and their ends, the names of a
//! program's file, and its variables in memory with what they begin with.
#![tactic(auto)]

mod births;
mod laws;
mod limit;
mod names;
mod sizes;
mod state;
mod statics;

pub use births::{born_arguments, born_locals, end_blocks};
pub use laws::variables_take_what_the_limit_counts;
pub use limit::passes_static;
pub use names::FileNames;
pub use state::Start;

#[cfg(test)]
mod tests;
