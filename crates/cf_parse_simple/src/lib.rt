//! Specifiers, declarators, enumerations and simple declarations read from tokens (7, 8).
//!
//! Each rule is a function over a cursor and what is known, that reads what the reading of the grammar reads there.
#![tactic(auto)]

mod beginnings;
mod constructors;
mod declaration;
mod declarator_list;
mod enumerations;
mod given;
mod specifier_list;

pub use declaration::{simple, specified};
pub use declarator_list::{Declared, declarators, initialised, more_declarators, one_declarator};
pub use enumerations::enumeration;
pub use specifier_list::specifiers;
