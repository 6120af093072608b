//! All nodes of a core in one list, so that what is asked of each node is a loop.
//!
//! `specs/Views` has the nodes that stand in memory as plain data.
#![tactic(auto)]

mod walk;

pub use walk::nodes_of;
