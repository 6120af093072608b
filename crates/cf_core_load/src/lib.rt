//! Loads a file's core into the trees of the plain program. What it gives means what the core means.
#![tactic(auto)]

mod fault;
mod file;
mod functions;
mod statics;

pub use fault::LoadFault;
pub use file::load;
