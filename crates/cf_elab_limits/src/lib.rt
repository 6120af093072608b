//! The limit on the sizes of types while a file is elaborated (9.1).
//!
//! Each function does a row of the definitions of elaboration, and its contract cites the row by its name in `specs/Shut`.
#![tactic(auto)]

mod bytes;
mod within;

pub use within::{check_type, check_types};
