//! Initialisers in braces while a file is elaborated: what of a list initialises what of an object (8.4.1, 8.4.2).
//!
//! A list is planned before anything is carried out, since it may be too long for its object. The contracts cite the definitions by the names of
//! `specs/Shut`.

mod counting;
mod form;
mod front;
mod plan;
mod planning;
mod tree;

pub use counting::count_in;
pub use form::is_char;
pub use plan::Plan;
pub use planning::by_one;
pub use tree::Tree;
