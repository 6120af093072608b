//! Whole files in the core that elaboration makes: the items in turn, and the core of their end.
//!
//! `specs/Laws` says what the end of a file is to be (`IsFinished`) and the law: its core is valid; a look at the end decides it (`specs/Ends`, `proofs/Decided` by the sorts of types,
//! `proofs/Sorted`). `proofs/Items` goes from the first environment to the end, `proofs/Small` has that no type is too large, since each item looks at the types that it made,
//! `proofs/Measured` that the size of a type is that of its tree, and `proofs/Units` goes from what holds at the end to the validity of the core.

mod laws;

pub use laws::files_are_valid;
