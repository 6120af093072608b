//! Operators whose operands may be class objects, while a file is elaborated (5, 13.4). So far there are no classes, so each does what it does to
//! operands that are none; no operator function is looked for.
//!
//! Each function does a row of the definitions of elaboration, and its contract cites the row by its name in `specs/Shut`.

mod one;
mod two;

pub use one::{prefix_operator, step_operator};
pub use two::{assign_operator, binary_operator, index_operator};
