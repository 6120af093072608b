//! What limits the start of a run of the small C: the number of a program's nodes, and the greatest frame of its functions
//! times the depth.
#![tactic(auto)]

mod expressions;
mod frames;
mod limit;
mod nodes;
mod sizes;
mod sums;

pub use limit::{StartLimit, may_start, passes_nodes};

#[cfg(test)]
mod tests;
