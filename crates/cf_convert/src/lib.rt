//! Implicit conversions: from a value to the type that is wanted of it.
#![tactic(auto)]

mod conv;
mod implicit;
mod types;

pub use conv::{Conv, ConvStep, Val};
pub use implicit::standard;

#[cfg(test)]
mod tests;
