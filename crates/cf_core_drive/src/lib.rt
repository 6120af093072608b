//! Runs a core in the plain program over an input and an output: the bytes that it takes come from a source, and those that it puts go
//! to a sink, one by one, exactly as the core's meaning says.
#![tactic(auto)]

mod machine;
mod turn;
mod types;

pub use machine::drive;
pub use types::{Driven, End, Fault};
