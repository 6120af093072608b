//! Finds what a call of the small C calls: by name, or by the number that a pointer to a function holds.
#![tactic(auto)]

mod find;
mod library;
mod signature;

pub use find::{Callee, callee_named, callee_numbered};
pub use library::Library;
pub use signature::has_type;
