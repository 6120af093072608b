//! Expressions with all that is in them, types in brackets and declarators, while a file is elaborated (5, 8.1, 8.2).
//!
//! `specs/Shut` names what each is by the definitions of elaboration; the forms that are not built are kept out by `IsBuilt` and its kin.
#![tactic(auto)]

mod built;
mod declarators;
mod expression;
mod forms;
mod lists;
mod names;
mod types;

pub use declarators::shape_of;
pub use expression::{evaluated, operand};
pub use lists::values;
pub use names::declared_name;
pub use types::type_of;
