//! Enumerations with the expressions of their enumerators, while a file is elaborated (7.2).
//!
//! `specs/Shut` names the rows of the definitions of elaboration that the contracts cite; forms of expressions that are not built are kept out by
//! `AreBuilt`.

mod checking;
mod counting;
mod defining;
mod making;

pub use cf_elab_expr::{declared_name, evaluated, shape_of};
pub use defining::enumeration;
