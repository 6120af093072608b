//! From the bytes of a file to its C unit and the text of that.
//!
//! `specs/Takes` says which files are translated, `specs/Tests` what is asked of their cores, and `specs/Means` what a text keeps of them. `compiling` reads a file
//! and asks whether its constructs are built, `making` makes the unit of a core whose constructs are, `testing` has the tests before it, and `writing` its text; by
//! `laws` a file has one answer.
#![tactic(auto)]

mod compiled;
mod compiling;
mod fault;
mod laws;
mod making;
mod testing;
mod writing;

pub use compiled::Compiled;
pub use compiling::compile;
pub use fault::Fault;
pub use laws::files_are_taken_once;
