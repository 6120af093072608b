//! The types that names and specifiers stand for while a file is elaborated (3.2, 7.1.6).
//!
//! Each function does a row of the definitions of elaboration, and its contract cites the row by its name in `specs/Shut`.

mod elaborated;
mod keyed;
mod paths;
mod refusal;
mod specifiers;
mod type_name;

pub use paths::{keyed_type, type_at_path};
pub use specifiers::{word_of, words_of};
