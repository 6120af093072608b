//! Functions with a body in the core that elaboration makes: the law of one, outside of functions.
//!
//! Its statements are looked at in a scene of their own, whose locals are those at the end of the body (`proofs/Hands`). No open name of a file has a home in a
//! frame, so what can be named behind the body fits as before.

mod laws;

pub use laws::functions_are_valid;
