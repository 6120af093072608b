//! Laws on reading the whole small C: what is printed of a valid unit is read back as that very unit, and a text has exactly one answer of reading,
//! but for want of memory.
#![tactic(auto)]

mod answers;
mod back;

pub use answers::{text_has_an_answer, text_has_one_answer};
pub use back::printed_units_are_read_back;
