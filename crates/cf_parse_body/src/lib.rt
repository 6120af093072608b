//! Bodies of functions, with the initialisers before them, read from tokens (8.3, 9.3.2, 12.6.2).
#![tactic(auto)]

mod arguments;
mod bodies;
mod inits;
mod whole;

pub use bodies::{Body, late_names};
pub use inits::member_inits;
pub use whole::{body, body_by};
