//! Binary operators and assignments, and the operators whose operands may be class objects.
#![tactic(auto)]

mod assign;
mod binary;
mod operators;

pub use assign::assignment;
pub use binary::{check_complete, check_modifiable, increment, operation, prefixed, subscript};
pub use operators::{
    assign_operator, binary_operator, index_operator, prefix_operator, step_operator,
};
