//! How deep the tokens of a file are nested, and whether each bracket has its partner.
#![tactic(auto)]

mod brackets;
mod levels;
mod nesting;

pub use nesting::{Nesting, nesting_of};
