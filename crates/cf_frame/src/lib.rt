//! The bound of a function's frame, in bytes: no less than what its parameters and locals take in the small C at any place.
//!
//! `cf_core/specs/Frame` has the bound as a sum over the nodes of a function. Here it is computed in one walk over the tree.
#![tactic(auto)]

mod costs;
mod functions;
mod sizes;
#[cfg(test)]
mod tests;
mod walk;

pub use functions::{frame, frames};
