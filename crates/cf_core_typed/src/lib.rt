//! What a node of the core has to be to stand as a place or a value of a type, and that each node gives one of its own type from parts of theirs.
//!
//! There is no code here: `specs/` has the facts, `proofs/` a law for each node of the expressions without classes.
#![tactic(auto)]
