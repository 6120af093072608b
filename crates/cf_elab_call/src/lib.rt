//! Calls of functions that are no members while a file is elaborated (5.2.2).
//!
//! Each function does a row of the definitions of elaboration, and its contract cites the row by its name in `specs/Shut`.
#![tactic(auto)]

mod callees;
mod calls;
mod matching;
mod passing;
mod results;
mod signature;

pub use callees::{call_operand, call_value};
pub use calls::{call_functions, call_pointer};
pub use passing::arguments;
pub use results::called;
