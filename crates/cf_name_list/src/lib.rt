//! Names in a list that are looked up in a table: those in scope, or those that were declared.
#![tactic(auto)]

mod counts;
mod names;

pub use names::Names;

#[cfg(test)]
mod tests;
