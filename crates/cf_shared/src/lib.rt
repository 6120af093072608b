//! Values with several owners, and lists that share what they have in common with their older versions.
//!
//! A copy of such a list takes constant time, and a write leaves the other copies as they were.
#![tactic(auto)]

mod shared;
mod shared_vec;
pub mod tree;

pub use shared::Shared;
pub use shared_vec::SharedVec;

#[cfg(test)]
mod tests;
