//! Names and what they stand for: the scopes of a file.
#![tactic(auto)]

mod scopes;

pub use scopes::{EntityId, Scopes};

#[cfg(test)]
mod tests;
