//! Reading expressions, places, arguments and what a call calls, of the whole small C.
//!
//! `specs/` has what each function reads as a function on lists, and `proofs/` that it decides the grammar.
#![tactic(auto)]

mod called;
mod expressions;
mod lists;
mod operators;

pub use called::callee;
pub use expressions::expression;
pub use lists::{arguments, place};
