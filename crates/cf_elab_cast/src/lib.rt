//! Casts while a file is elaborated, for types that are no classes (5.2.3, 5.4).
//!
//! Each function does a row of the definitions of elaboration, and its contract cites the row by its name in `specs/Shut`.
#![tactic(auto)]

mod arguments;
mod casts;
mod form;
mod made;
mod same;

pub use arguments::{from_arguments, zero_value};
pub use casts::cast;
pub use cf_elab_arith::{conditional, sequence};
pub use same::same_types;
