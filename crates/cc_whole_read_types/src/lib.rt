//! Reading types of the whole small C, the types of functions, and locals and variables with their names.
//!
//! `specs/` has what each function reads as a function on lists, and `proofs/` that it decides the grammar.
#![tactic(auto)]

mod function_type;
mod types;
mod variable;

pub use function_type::signature;
pub use types::{pointed_type, result_type, sees_type, type_name};
pub use variable::{Declared, one_local, one_variable};
