//! The tokens at the front of a text of the whole small C, with their byte places, up to the first byte at which no token begins.
//!
//! `specs/` says what it is that these are the tokens at the front of some bytes, and that each begins at its place.
#![tactic(auto)]

mod front;

pub use front::{Front, front_of};
