//! Evaluates expressions of the small C and assigns to places, exactly as they mean.
//!
//! Which names are in scope is asked of `Names`, so that a runner may keep them as it likes.
#![tactic(auto)]

mod arithmetic;
mod assignment;
mod expression;
mod names;
mod operators;
mod types;

pub use assignment::{assign, store_at, target};
pub use expression::{integer, value, values};
pub use names::Names;
pub use types::{Stop, constant_value, scalar_of};
