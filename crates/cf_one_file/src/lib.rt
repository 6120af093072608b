//! Laws of one file, from its core to the run of its C text: the text that `cf_translate` gives does what the core means.
//!
//! `specs/` says what is asked of the core (`Covered`), and what the laws tell of a text's runs (`Means`). There is no code here: the laws are functions that do nothing.
#![tactic(auto)]

mod laws;

pub use laws::{
    built_cores_have_built_files, covered_is_lowerable, inputs_are_of_bytes,
    linked_files_have_main, lowerable_file_means, lowerable_file_runs_as_meant, one_file_means,
    one_file_runs_as_meant,
};
