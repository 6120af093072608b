//! Specifiers of declarations: what they say together, and the types that their names stand for.
#![tactic(auto)]

mod named;
mod said;

pub use named::{keyed_type, type_at_path, word_of, words_of};
pub use said::{Basics, Gathered, Word, base_type, conflict, earlier};
