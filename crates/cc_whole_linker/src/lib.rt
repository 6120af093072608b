//! Linking of the whole small C: units become a program, or the first broken rule L1 to L6 with a name, or the limit on the bytes of variables.
#![tactic(auto)]

mod breaking;
mod bytes;
mod capturing;
mod defined;
mod differing;
mod earlier;
mod error;
mod first;
mod kept;
mod linking;
mod start;
mod twice;
mod types;

pub use error::LinkErr;
pub use linking::link;
