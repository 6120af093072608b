//! The definitions of elaboration: what each construct of a file becomes in the core, or which rule it breaks, and where.
//!
//! There is no code here. The crates that elaborate cite `specs/`: an environment as plain data, one definition for each construct with
//! its checks in order, and `First`, which takes the tree of a file to its core or to the first broken rule with its place.
#![tactic(auto)]
