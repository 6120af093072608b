//! What the tests of plain functions ask of types.
//!
//! `kinds` is the integer types that a number is a value of, and `types` what is asked of types by their numbers in the file's table.
#![tactic(auto)]

mod kinds;
mod types;

pub use kinds::{Kinds, all_kinds, fits, kinds_fitting, kinds_within, meet_kinds, no_kinds};
pub use types::{
    are_chars, const_on_none, has_bytes, is_code, is_integer_type, is_laid, is_object_type,
    is_reference, is_signature, is_void, is_void_place,
};
