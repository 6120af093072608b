//! The C statements of plain statements.
//!
//! A function goes on from what is written so far, `specs/Steps` has what a walk stands in. `around` is the loops and switches around a statement,
//! `writes` the statements that are written, `zeros` zeros in the scalars of an object, `stores` values and bytes in objects, `calls`
//! calls, `leaves` the statements of one action, and `walk` all statements.
#![tactic(auto)]

mod around;
mod calls;
mod leaves;
mod stores;
mod walk;
mod writes;
mod zeros;

pub use around::{Around, Way};
pub use calls::{result_type, scalar_type};
pub use stores::{behind, character, put};
pub use walk::statements;
pub use writes::no_value;
