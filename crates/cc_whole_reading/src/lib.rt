//! Reading tokens of the whole small C: a place in a list of tokens, the steps that every rule is made of, and constants.
//!
//! `specs/` has what each function reads as a function on lists. `proofs/` has what it means that such a function
//! decides a way of spelling: it gives the one tree of the tokens up to a place, or the first token that no text of
//! such a tree with the same tokens before it has. The laws there carry this from parts to wholes.
#![tactic(auto)]

mod constants;
mod cursor;
mod stop;

pub use constants::{Constants, magnitude};
pub use cursor::Cursor;
pub use stop::Stop;
