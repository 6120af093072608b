//! The C expression of what an action gives.
//!
//! Its operands stand in the C locals of their registers. `scalars` has values by what a register holds, `places` the places that names stand for,
//! `operators` operators on integers, `pointers` those on pointers, `conversions` conversions and changes, and `actions` each action.
#![tactic(auto)]

mod actions;
mod conversions;
mod operators;
mod places;
mod pointers;
mod scalars;

pub use actions::value;
pub use operators::constant_of;
pub use scalars::{cell, cell_in, local_of, value_in};
