//! Reads a text of the whole small C into its valid unit.
//!
//! The first line gives the version, the tokens behind it are those of the items, and the first broken rule of validity is told at the byte
//! of its landmark. `specs/Read` says what each answer tells of a text.
#![tactic(auto)]

mod error;
mod landmarks;
mod laws;
mod places;
mod reader;
#[cfg(test)]
mod tests;

pub use error::ReadErr;
pub use laws::{text_has_one_unit, text_of_a_valid_unit_is_read, text_stops_at_one_place};
pub use reader::{TEXT_LIMIT, read};
