//! What statements are while a file is elaborated (6).
//!
//! Contracts see a `Made` and a `Reached` as the records of those names that the definitions of elaboration are written with.
#![tactic(auto)]

mod made;
mod reached;

pub use made::{Label, Made};
pub use reached::Reached;
