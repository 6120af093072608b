//! Whole files: the core that elaboration makes of one is valid where its end is well formed.
//!
//! The law of `cf_elab_valid_file` without its premise on constants: `proofs/Initialisers` has that the parts of an initialiser are apart (`cf_elab_apart`), so that a constant
//! initialiser names no local.

mod laws;

pub use laws::{constants_are_apart, elaborated_files_are_valid, finished_files_are_valid};
