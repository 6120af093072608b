//! The numbers of constant expressions: what operators and conversions make of them where they are known, each a value of its type.
#![tactic(auto)]

mod kinds;
mod numbers;
#[cfg(test)]
mod tests;

pub use kinds::{is_shift, operand_kind, operator_kind, result_kind};
pub use numbers::{
    both_true, chosen, complement, convert_number, inverted, negative, one_true, operated,
};
