//! A look at the end of a file: whether what elaboration has made there is a valid core.
//!
//! `cf_elab_valid_files/specs/File/Ends` says what is looked at: where the types lead, the link names, and of what types the objects are. The law that the core is
//! valid then stands in `cf_elab_valid_files`.
#![tactic(auto)]

mod ends;
mod hand;
mod names;
mod objects;
mod sorts;
mod types;

pub use ends::is_finished;
