//! Reading the items of a unit of the whole small C.
//!
//! `items_of` gives the items that tokens spell, or the first token at which they stop being those of a unit. `specs/` has what it answers and what
//! each function reads as a function on lists.
#![tactic(auto)]

mod initial;
mod item;
mod later;
mod laws;
mod prototypes;
mod tokens;

pub use laws::tokens_have_one_list_of_items;
pub use tokens::{ItemsErr, items_of};
