//! How an object or a reference takes a value while a file is elaborated (8.4, 8.4.3).
//!
//! Each function does a row of the definitions of elaboration, and its contract cites the row by its name in `specs/Shut`.

mod binding;
mod initials;
mod keeping;
mod start;

pub use initials::initial;
pub use keeping::Keeping;
pub use start::Start;
