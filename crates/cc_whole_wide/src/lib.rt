//! Others in place of constants beyond 32 bits, which no tree of the whole small C holds: tokens that spell items whose first fault tells the first
//! fault of the items whose constants these are.
//!
//! `specs/Others` says which tokens they are, `specs/Place` what a fault of them tells.
#![tactic(auto)]

mod label;
mod landmark;
mod laws;
mod put;
mod role;
mod tokens;

pub use landmark::is_landmark;
pub use laws::items_have_others_in_place;
pub use tokens::{first_wide, others};
