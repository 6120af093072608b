//! The tokens of a text of the whole small C.
//!
//! A text is cut into signs, words, names, numbers, strings and the lines that mark shared definitions, with
//! blanks between them. `specs/` has how each token is spelled and how a text is cut.
#![tactic(auto)]

mod mark;
mod token;
mod words;

pub use mark::Mark;
pub use token::Token;
pub use words::is_name;
