//! Binary operators on operands that are no class objects, while a file is elaborated (5.6 to 5.15).
//!
//! Each function does a row of the definitions of elaboration, and its contract cites the row by its name in `specs/Shut`.

mod binary;
mod fitted;
mod moves;
mod nulls;
mod operators;
mod pairs;
mod sorts;
mod void_pointers;

pub use binary::operation;
pub use cf_elab_arith::{check_complete, check_modifiable, increment, prefixed, subscript};
