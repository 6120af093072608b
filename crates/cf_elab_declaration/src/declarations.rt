//! Declarations of a file or a block with all that is in them, while a file is elaborated (7, 8).
//!
//! `specs/Shut` names the rows of the definitions of elaboration that the contracts cite; forms that are not built are kept out by `IsBuilt` and its
//! kin.

mod alias;
mod built;
mod declarators;
mod declaring;
mod specifiers;

pub use declaring::declaration;
pub use specifiers::words;
