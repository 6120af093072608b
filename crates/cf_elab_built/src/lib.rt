//! What of a file is not built, and which names it defines: walks over its tree.
#![tactic(auto)]

mod built;
mod scan;

pub use built::not_built;
pub use scan::{declared_name, defined_names, is_bare, is_function, key};
