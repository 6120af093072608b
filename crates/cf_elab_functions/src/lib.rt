//! Declarations of functions of a file while it is elaborated (3.3, 3.4, 8.2.5, 8.3).
//!
//! Each function does a row of the definitions of elaboration, and its contract cites the row by its name in `specs/Shut`. So far no parameter has a
//! default argument, and no function is an operator, which would take an object of a class.
#![tactic(auto)]

mod again;
mod checks;
mod declaring;
mod entities;
mod entries;
mod function_types;
mod laws;
mod says;

pub use declaring::declare_function;
pub use laws::parameters_do_not_matter;
pub use says::{Called, Says};
