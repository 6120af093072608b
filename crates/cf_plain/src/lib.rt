//! Plain statements, which the core becomes before it is lowered: each has one effect, and its operands stand in registers.
//!
//! What C leaves open is settled here: the order of evaluation, the temporaries and the flags that tell which of them are there, the branches of
//! `&&`, `||` and `?:`, the ends of objects on each way out of a scope. `specs/` has the meaning, over the core's object store and acts.
#![tactic(auto)]

mod action;
mod statement;
#[cfg(test)]
mod tests;
mod unit;

pub use action::Action;
pub use statement::{Plain, PlainPart};
pub use unit::{PlainFn, PlainStatic, PlainUnit};
