//! Which types of a core's tables have a form in the plain program's trees, and what they are there.
#![tactic(auto)]

mod function;
mod object;
mod shape;

pub use function::{signature, signature_of};
pub use object::{object_type_of, object_types};
pub use shape::shape_of;
