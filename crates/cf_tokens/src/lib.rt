//! The tokens of a source file.
//!
//! `tokens` cuts the bytes of a file into its tokens, or names the first fault of its lexical form: the
//! definition `Lex` of `specs/` says which.
#![tactic(auto)]

mod character;
mod class;
mod constant;
mod fault;
mod front;
mod gap;
mod join;
pub mod keyword;
mod laws;
mod lexer;
mod literal;
mod name;
mod number;
mod piece;
pub mod sign;
mod symbol;
mod table;
mod token;

pub use fault::LexFault;
pub use laws::{longest_tokens, one_answer};
pub use lexer::tokens;
pub use token::{Token, Word};

#[cfg(test)]
mod tests;
