//! Functions with a body, while a file is elaborated (8.3).
//!
//! A definition is its specifiers, its declarator, the declaration of its function, and then its body, whose parameters are objects of the outermost
//! block; what comes out is one more function of the file's core. Each contract cites its step by its name in `specs/Shut`, and `proofs/Rows`,
//! `proofs/NamedLaws` and `proofs/TreeRows` say that a definition is its steps. So far no function is a member.

mod bodies;
mod built;
mod checks;
mod entries;
mod functions;
mod hands;
mod named;
mod parameters;
mod trees;

pub use trees::definition;
