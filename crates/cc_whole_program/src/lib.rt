//! Validity of programs of the whole small C: whether a program keeps the rules of validity, has no static item, defines
//! `main`, and defines all that it uses but the library functions.
#![tactic(auto)]

mod defined;
mod expressions;
mod program;
mod statements;

pub use program::{ValidProgram, is_valid_program};

#[cfg(test)]
mod tests;
