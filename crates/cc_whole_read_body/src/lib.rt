//! Reading statements and bodies of the whole small C.
//!
//! `specs/` has what each function reads as a function on lists, and `proofs/` that it decides the grammar.
#![tactic(auto)]

mod effects;
mod nested;
mod parts;

pub use nested::body;
