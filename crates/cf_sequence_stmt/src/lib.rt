//! Sequencing of statements: the ends of objects on each way out of a scope, loops with their conditions inside, and switches.
//!
//! `specs/Steps` has what is written for each node. A function goes on from what is written so far.
#![tactic(auto)]

mod body;
mod expressions;
mod forms;
mod initials;
mod passing;
mod rows;

pub use body::{Body, Open, Ways};
pub use forms::{statement, statements};
pub use initials::placed;
pub use rows::Row;
