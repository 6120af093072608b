//! Names in a list, each of which may stand there more than once: a table finds where the last one of a name stands.
#![tactic(auto)]

mod latest;
mod places;

pub use places::Places;

#[cfg(test)]
mod tests;
