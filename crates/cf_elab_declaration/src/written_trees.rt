//! Initialisers with the expressions in them, while a file is elaborated (8.4).
//!
//! `specs/Shut` names the rows of the definitions of elaboration that the contracts cite; forms of expressions that are not built are kept out by
//! `IsBuilt` and its kin.

mod built;
mod expressions;
mod initialisers;
mod outlines;
mod trees;

pub use initialisers::{initial_at, parts_of, written};
pub use outlines::outline;
pub use trees::tree_of;
