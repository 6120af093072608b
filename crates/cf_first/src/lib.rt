//! From the bytes of a file to its core.
//!
//! `specs/First` says what a file is: its core, the first rule that it breaks and where, or the limit that it passes.
#![tactic(auto)]

mod fault;
mod laws;
mod reader;
#[cfg(test)]
mod tests;

pub use fault::Fault;
pub use laws::files_have_one_answer;
pub use reader::first;
