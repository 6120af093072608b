//! The core that elaboration makes is valid, for files without classes: what holds on the way, and a law for each row of the definitions.
//!
//! Nodes are typed by the tables of the end (`specs/Scene`), and an environment on the way has the first of their types, so nothing has to be said
//! of a node when tables grow. What a row makes is `Fine` (`specs/Answers`): nothing of the types so far is changed, no class comes up, and in each
//! end that the way leads to the names still fit and the value is one of its type. `specs/Laws` says it of all expressions,
//! and of statements that declare nothing.
#![tactic(auto)]

mod laws;

pub use laws::{expressions_are_valid, simple_statements_are_valid, types_are_there};
