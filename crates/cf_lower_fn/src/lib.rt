//! The C functions of plain ones.
//!
//! `walk` has what a function's statements do, in order, `counts` how many registers and flags they take, `locals` the C locals of a function,
//! `results` those for what calls give, `prototypes` heads of functions, and `functions` whole functions.
#![tactic(auto)]

mod counts;
mod functions;
mod locals;
mod prototypes;
mod results;
mod walk;

pub use functions::{lower_function, made_function};
pub use locals::object_type;
pub use prototypes::{own_prototype, prototype_of};
pub use walk::{actions, actions_of};
