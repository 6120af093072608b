//! Sequencing of expressions: the value of each comes into a register, by plain statements of one effect each.
//!
//! `specs/Pieces` has what is written for each node. A function goes on from what is written so far.
#![tactic(auto)]

mod changes;
mod function_types;
mod holders;
mod locals;
mod temporaries;
mod values;
mod writing;

pub use function_types::parameters;
pub use locals::{add_locals, width};
pub use temporaries::{Temporary, temporaries_of};
pub use values::value;
pub use writing::{Full, Writing, behind, beyond, copied};
