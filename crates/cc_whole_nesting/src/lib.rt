//! How deep the tokens of a text of the whole small C are nested.
//!
//! The text is a level, and so is the inside of each open bracket; `specs/Nesting` has how each token counts. `is_too_deep` tells whether the
//! nesting at some token passes the limit of texts that are read.
#![tactic(auto)]

mod kind;
mod level;
mod levels;
mod nesting;
#[cfg(test)]
mod tests;

pub use levels::NESTING_LIMIT;
pub use nesting::is_too_deep;
