//! The laws that what sequencing makes is lowered.
//!
//! `cf_lower_program` says which plain files are lowered. The plain file of a core's file that is built passes these tests, a law a test; where a test needs what elaboration makes
//! so, it is a premise on the core, of `specs/`.
#![tactic(auto)]

mod laws;

pub use laws::{
    sequenced_actions_are_lowered, sequenced_arguments_are_apart, sequenced_counts_fit,
    sequenced_files_are_lowerable, sequenced_files_have_no_classes, sequenced_functions_are_plain,
    sequenced_functions_are_ready, sequenced_labels_fit, sequenced_literals_differ,
    sequenced_names_are_lowered, sequenced_names_are_shared_or_local, sequenced_statics_are_known,
    sequenced_texts_fit, sequenced_types_are_lowered,
};
