//! Specifiers of declarations while a file is elaborated: what they say together, and the type that they name (7.1).
//!
//! Contracts see `Gathered` and `Basics` as the records of those names that the definitions of elaboration are written with.

mod base;
mod basics;
mod conflicts;
mod gathered;
mod standing;
mod word;

pub use base::base_type;
pub use basics::Basics;
pub use conflicts::{conflict, earlier};
pub use gathered::Gathered;
pub use word::Word;
