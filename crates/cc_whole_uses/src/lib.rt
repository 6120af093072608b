//! The names that an item of the small C uses, and those of its parameters and locals, in the order of the text.
#![tactic(auto)]

mod expressions;
mod inner;
mod items;
mod uses;

pub use items::{inner_names, uses_of_item};
