//! Laws: the core that elaboration makes of a file is valid.
#![tactic(auto)]

mod bodies;
mod declarations;
mod file;
mod files;
mod functions;
mod statics;
mod switches;

pub use bodies::bodies_are_valid;
pub use declarations::enumerations_are_valid;
pub use file::files_are_valid;
pub use files::{constants_are_apart, elaborated_files_are_valid, finished_files_are_valid};
pub use functions::functions_are_valid;
pub use statics::statics_are_valid;
pub use switches::switches_are_valid;
