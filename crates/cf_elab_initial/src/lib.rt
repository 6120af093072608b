//! How an object takes a value, and what of an initialiser in braces initialises what of it.
#![tactic(auto)]

mod initials;
mod lists;

pub use initials::{Keeping, Start, initial};
pub use lists::{Plan, Tree, by_one, count_in, is_char};
