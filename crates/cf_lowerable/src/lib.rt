//! Whether what sequencing makes of a file is lowered.
//!
//! Tests stand for laws that no one shows yet of each core that elaboration gives: `cores` has those of the core, which come before sequencing, `files` those
//! of the plain file that are left then, and `laws` that a file which passes all of them is lowered (`Lowerable` of `cf_lower_program`).
#![tactic(auto)]

mod cores;
mod files;
mod laws;

pub use cores::core_passes;
pub use files::plain_passes;
pub use laws::{tested_files_are_lowerable, tested_units_are_lowerable};
