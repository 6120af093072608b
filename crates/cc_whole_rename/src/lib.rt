//! Trees of the small C with other names for the static functions and variables of their unit, as linking puts them into a program.
//!
//! `specs/Renamed` is the renaming inside parameters and locals that hide some of the names.
#![tactic(auto)]

mod bodies;
mod copies;
mod expressions;
mod items;
mod names;

pub use items::renamed_item;
pub use names::{Statics, longer, renamed};
