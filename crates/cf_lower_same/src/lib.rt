//! Whether two types are the same, as lowering asks where two ways meet.
//!
//! `alike` has when two are, by their forms, `enumerations` whether two enumerations have one name, `same` types of a file, and `literals` those that
//! literals have. Types of classes are not compared yet: where two have different numbers, that is answered as if memory had ended.
#![tactic(auto)]

mod alike;
mod enumerations;
mod literals;
mod same;

pub use literals::same_places;
pub use same::{same_bare, same_exactly};
