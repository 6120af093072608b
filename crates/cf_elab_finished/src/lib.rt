//! The core of a file that is elaborated, as the stages behind it take it: valid.
//!
//! A core exists only where it is valid. The law is `finished_files_are_valid` of `cf_elab_valid_files`: it asks that the tree is as those of texts are, and
//! that a look at the end of the file finds it well formed. Both are decided (`cf_elab_fits`, `cf_elab_ends`).
#![tactic(auto)]

mod finished;
mod laws;
mod looks;

pub use finished::core_of;
pub use laws::files_have_one_core;
