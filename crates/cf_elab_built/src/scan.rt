//! The names that a file's own declarations define, by their trees, and how a name is looked up.

mod declarator;
mod keys;
mod scan;

pub use declarator::{declared_name, is_bare, is_function};
pub use keys::key;
pub use scan::defined_names;
