//! Whether the C of a file uses what the file names and other files define, and which names of functions and objects are lowered.
//!
//! `known` has the names that are the file's own or that its C uses, `named` whether those that actions have are among them, and `used` the answer for a
//! file. `linked` has whether what actions name is lowered, and `lowered` that answer for a file.
#![tactic(auto)]

mod known;
mod linked;
mod lowered;
mod named;
mod used;

pub use lowered::{names_are_lowered, names_are_lowered_in};
pub use used::{names_are_used, names_are_used_in};
