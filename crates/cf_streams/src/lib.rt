//! The input and the output of a run: what it takes and puts, and what is counted of it.
#![tactic(auto)]

mod taking;
mod tally;

pub use taking::take;
pub use tally::Tally;

#[cfg(test)]
mod tests;
