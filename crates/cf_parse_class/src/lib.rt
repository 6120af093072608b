//! Parts of classes that hold no members: bases, words of access, and bodies that are passed over (9, 10, 11.1).
#![tactic(auto)]

mod bases;
mod passing;
mod words;

pub use bases::{Bases, bases_behind};
pub use passing::pass_over;
pub use words::{access_word, class_key, maybe_identifier, pure_behind};
