//! Sequencing of functions and static objects: the plain statements of each, and the types of the locals that it has with those that are added.
//!
//! `specs/Functions` has what is written for them, from `cf_sequence_stmt`'s statements.
#![tactic(auto)]

mod definitions;
mod statics;

pub use definitions::{function, functions};
pub use statics::{object, objects};
