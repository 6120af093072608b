//! Runs a file's core over an input and an output, as the file means: it is loaded into the trees of the plain program, and these run.
#![tactic(auto)]

mod fault;
mod run;

pub use fault::UnitFault;
pub use run::run_unit;
