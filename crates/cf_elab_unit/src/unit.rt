//! Elaboration of a file's tree: what is known at its end, or the first rule that it breaks and where (3.4, 17).
//!
//! `specs/Shut` names the rows of a file's items; the public contract cites the definition of a file's elaboration itself.

mod files;
mod items;

pub use files::elab;
