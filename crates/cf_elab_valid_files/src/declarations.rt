//! Declarations in the core that elaboration makes: names of types, enumerations, functions and objects, by their declarators.
//!
//! A declarator declares a name by its kind, in a function or outside of functions (`proofs/Rows`): what it reaches there fits. Enumerations have a law of
//! their own (`specs/Laws`); the laws of declarations by their trees stand above, with those of statements.

mod laws;

pub use laws::enumerations_are_valid;
