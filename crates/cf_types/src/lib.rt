//! The types of the language, and arithmetic on integers.
//!
//! A table gives each type a number, equal types the same one. Integers are promoted, converted and combined as the
//! definitions of the ground crate say.
#![tactic(auto)]

mod arithmetic;
mod ids;
mod integers;
mod ty;
mod types;

pub use arithmetic::int_op;
pub use ids::{ClassId, FunId, TyId};
pub use integers::{convert_int, promote, usual};
pub use ty::{Fun, Ty};
pub use types::Types;

#[cfg(test)]
mod tests;
