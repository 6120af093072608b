//! Assignments to places that are no class objects, while a file is elaborated (5.17).
//!
//! Each function does a row of the definitions of elaboration, and its contract cites the row by its name in `specs/Shut`.

mod assigned;
mod combined;
mod operators;
mod updated;

pub use assigned::assignment;
