//! Writes a unit of the whole small C as a text.
//!
//! `print` writes one space between tokens of a line, and a newline behind the first line and behind each `;`, `:`, `{` and `}` that
//! no initialiser holds. Brackets stand only where the tree needs them. `specs/` has the text as a fold.
#![tactic(auto)]

mod expression;
mod initialiser;
mod lines;
mod statement;
#[cfg(test)]
mod tests;
mod types;
mod unit;

pub use unit::print;
