//! Types in brackets and the types of parameters, behind their specifiers and declarators, while a file is elaborated (8.1, 8.2.5).
//!
//! Each function does a row of the definitions of elaboration, and its contract cites the row by its name in `specs/Shut`.

mod types;

pub use types::{is_stored, parameter_behind, type_behind};
