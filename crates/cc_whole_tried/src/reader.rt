//! Reads texts of tests. An expression with two operators has to bracket one of them; otherwise the texts are those of the small C
//! without their first line.

mod cursor;
mod expressions;
mod items;
mod statements;
mod types;
mod wrong;

pub use items::read_items;
pub use wrong::Wrong;
