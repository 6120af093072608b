//! Validity of the whole small C: whether a unit keeps rules V1 to V12, and else the first fault with its place.
//!
//! A check goes past the landmarks of a tree in the order of the text, up to the first broken rule. `specs/Typing`, `specs/Checking` and
//! `specs/CheckingItems` say how; laws in `proofs/` say that this is the fault that the definition finds.
#![tactic(auto)]

mod around;
mod calls;
mod constants;
mod expressions;
mod items;
mod labels;
mod landmarks;
mod locals;
mod names;
mod scope;
mod signature;
mod spellable;
mod statements;
mod stop;
mod types;
mod unit;
mod variables;

pub use names::is_library;
pub use stop::Fault;
pub use unit::{ValidUnit, first_fault, is_valid, valid_items};
