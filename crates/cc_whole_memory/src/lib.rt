//! The memory of a run of the small C: numbered blocks of bytes, and what is stored, loaded and moved there.
//!
//! `specs/` has the definitions, on which the meaning of programs stands; `Store` is a memory as a list of blocks.
#![tactic(auto)]

mod act;
mod cells;
mod heap;
mod pointers;
mod store;
mod value;

pub use act::Act;
pub use cells::{Cell, load, pieces, place, put};
pub use pointers::same_pointer;
pub use store::{Block, Storage, Store};
pub use value::{Pointer, Scalar, Value, as_scalar, bytes_of, size_of, zero_of};
