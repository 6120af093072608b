//! Whether the names of functions and objects are lowered.
//!
//! `letters` tests names by their letters, `entity` has what items mean by their names, `same` compares types, `meanings` finds what a name means by the
//! first item of that name, and `fits` tests items.
#![tactic(auto)]

mod entity;
mod fits;
mod letters;
mod meanings;
mod same;

pub use fits::{all_fit, named_fits};
pub use letters::{may_be_function, may_be_object};
pub use meanings::Meanings;
