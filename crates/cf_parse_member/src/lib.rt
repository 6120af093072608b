//! Functions with bodies, members and classes read from tokens (8.3, 9, 10).
//!
//! Each rule is a function over a cursor and what is known, that reads what the reading of the grammar reads there.
#![tactic(auto)]

mod classes;
mod function;
mod heads;
mod list;
mod member;
mod member_list;
mod parts;
mod words;

pub use classes::class;
pub use function::{begins_body, defined};
pub use heads::{Head, class_head};
pub use member::one_member;
