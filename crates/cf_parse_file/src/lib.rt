//! What the tokens of a file are (17): its tree, or the one reason why there is none.
#![tactic(auto)]

mod answer;
mod fault;

pub use answer::unit;
pub use fault::ParseFault;
