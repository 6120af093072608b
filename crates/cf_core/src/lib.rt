//! The typed core that elaboration makes, and in `specs/` the meaning that the manual gives to it.
//!
//! A core has a node for each construct with its place in the text. The meaning is a machine over trees of subobjects, without
//! addresses, offsets or tables. It ends a run at the first act that has no meaning.
#![tactic(auto)]

mod node;
mod operators;
mod place;
#[cfg(test)]
mod tests;
mod unit;

pub use node::{BuiltPart, Change, Core, Holder, PartStart, Target};
pub use operators::{LoopForm, PointerOperator, UnaryOperator};
pub use unit::{CoreFn, CoreStatic, CoreUnit, Role};
