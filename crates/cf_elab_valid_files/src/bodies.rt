//! Statements and declarations by their trees in the core that elaboration makes: the induction over the tree.
//!
//! `specs/Trees` says what trees of texts are, `specs/Laws` the law; `proofs/Initial` has the parts of initialisers, and `proofs/Bodies` the induction over laws
//! of rows that stand below.

mod laws;

pub use laws::bodies_are_valid;
