//! Expressions and declarators read from tokens (5, 8).
//!
//! Each rule is a function over a cursor that reads what the reading of the grammar reads there. The rules take the
//! function that reads what stands inside as a parameter, and `knot` ties them. `whole` reads each production at a cursor,
//! `longest` says that what is read is the longest phrase, and `place` says it of a place among the tokens of a
//! file, with the fault where none begins.
#![tactic(auto)]

mod arguments;
mod binaries;
mod cursor;
mod declarators;
mod fault;
mod grammar;
mod knot;
mod level;
mod longest;
pub mod names;
mod operands;
mod operators;
mod parameters;
mod place;
mod scopes;
pub mod specifiers;
mod stop;
mod unaries;
pub mod whole;
pub mod words;

pub use cursor::Cursor;
pub use fault::{ExprFault, ends_in_range};
pub use level::Level;
pub use place::{declarator, expr, params, type_id};
pub use scopes::Scopes;
pub use stop::Stop;
