//! Integer operators, unary operators, steps, subscripts, the conditional and the comma.
#![tactic(auto)]

mod arith;
mod choice;
mod unary;

pub use arith::{
    broken, complemented, conjunction, convert, disjunction, integer, integral_at, is_complete,
    is_enum, is_pointer, is_void_pointer, kind_at, negated, negation, object_at, on_kinds, plain,
    steps, target_at, to_kind, truth,
};
pub use choice::{conditional, sequence};
pub use unary::{
    address_of, check_complete, check_modifiable, increment, prefixed, stays_fixed, subscript,
};
