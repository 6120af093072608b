//! Conditional expressions and commas while a file is elaborated (5.16, 5.18).
//!
//! Each function does a row of the definitions of elaboration, and its contract cites the row by its name in `specs/Shut`.

mod alternatives;
mod asked;
mod choosing;
mod commas;

pub use choosing::conditional;
pub use commas::sequence;
