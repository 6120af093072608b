//! Linking of the whole small C: in `specs/` what program units make, or the first rule that they break.
#![tactic(auto)]

mod refusal;

pub use refusal::LinkRule;
