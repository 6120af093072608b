//! Sequencing of a file: its core becomes plain statements with the same meaning.
//!
//! `cf_sequence_built` finds what is not built, `cf_sequence_fn` makes the functions, and `cf_frame` has the bounds of their frames.
#![tactic(auto)]

mod fault;
mod laws;
mod unit;

pub use fault::SequenceFault;
pub use laws::sequenced_units_keep_the_meaning;
pub use unit::sequence;
