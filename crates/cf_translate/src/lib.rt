//! From the core of a file to its unit of the small C and a text of that unit.
#![tactic(auto)]

mod texts;

pub use texts::{Translated, translate};
