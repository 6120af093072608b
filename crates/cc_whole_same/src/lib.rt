//! Whether two trees of the small C are equal: of expressions, statements, and items of units.
#![tactic(auto)]

mod bodies;
mod expressions;
mod items;
mod lists;

pub use items::same_item;
