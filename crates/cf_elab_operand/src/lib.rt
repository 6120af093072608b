//! Names, literals and `sizeof` while a file is elaborated, and the value of an operand (2.5, 5.1, 5.3.2).
//!
//! Each function does a row of the definitions of elaboration, and its contract cites the row by its name in `specs/Shut`.
#![tactic(auto)]

mod functions;
mod literals;
mod names;
mod objects;
mod operands;
mod sizes;

pub use literals::{integer, literal};
pub use names::named;
pub use operands::{value_of, values};
pub use sizes::{size_behind, size_constant};
