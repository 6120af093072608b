//! Switches in the core that elaboration makes: what stands in their braces is a statement or a label, and the whole fits the function at hand.
//!
//! `specs/Entries` says what holds in the braces, `specs/Laws` the law, over parts that are fine as in `cf_elab_valid`.

mod laws;

pub use laws::switches_are_valid;
