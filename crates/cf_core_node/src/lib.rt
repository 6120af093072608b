//! The trees of the plain program that a core's nodes are. Not every node has one: `specs/` says by the cases of the core which have.
#![tactic(auto)]

mod defined;
mod fault;
mod leaves;
mod names;
mod nodes;
mod parts;

pub use defined::{Defined, FunctionHead, StaticHead};
pub use fault::NotLoaded;
pub use names::{is_among, linked};
pub use nodes::node;
