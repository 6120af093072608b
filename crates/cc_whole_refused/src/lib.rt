//! Where a text of the small C stops being C, and the byte at which the first broken rule of validity stands, as definitions in `specs/`.
//!
//! They are what a reader will answer. `proofs/` has rows: a program of one `return`, the same with a name that is not declared, and cut behind
//! the word.
#![tactic(auto)]
