//! What is known at a place of a file while it is elaborated, and the values of its expressions.
//!
//! Contracts see an `Env` and a `Value` as the records of those names that the definitions of elaboration are written with, so a
//! function that does a row of theirs cites the row itself. So far no type is a class, which is an invariant of `Env`.
#![tactic(auto)]

mod added;
mod at_hand;
mod declared;
mod entity;
mod entries;
mod env;
mod extent;
mod functions;
mod hand;
mod intern;
mod names;
mod object;
mod operand;
mod scopes;
mod sort;
mod stop;
mod types;
mod value;

pub use entity::Entity;
pub use env::Env;
pub use extent::Extent;
pub use functions::FunctionEntry;
pub use hand::{Asker, BodyKind, Hand};
pub use object::{Home, Object};
pub use operand::Operand;
pub use sort::Sort;
pub use stop::Stop;
pub use value::Value;
