//! Whether all constants fit 32 bits, which rule V11 of validity asks: of the tree of a unit, and of its tokens.
//!
//! Whether a number of the tokens fits depends on its sign, and whether a `-` before it is its sign on what stands before the `-`.
//! `specs/Fitting` says it of trees, `specs/Numbers` of tokens, and a law that both are one.
#![tactic(auto)]

mod before;
mod laws;
mod numbers;
#[cfg(test)]
mod tests;

pub use before::{Before, behind};
pub use laws::numbers_fit_as_their_items;
pub use numbers::{numbers_fit, token_fits};
