//! Statements and declarations read from tokens (6, 7).
//!
//! Each rule is a function over a cursor and what is known, that reads what the reading of the grammar reads there.
//! The rules take the function that reads what stands inside as a parameter.
#![tactic(auto)]

mod choice;
mod grammar;
mod initialisers;
mod known;
mod simple_statements;
mod statements;
mod trial;

pub use grammar::{Grammar, Node, Wanted};
pub use initialisers::initialiser;
pub use known::{Bodies, Known, commas, condition};
