//! Files read from tokens (17): the tree of a file, or that there is none.
//!
//! The rules of files stand over those of declarations, members and statements, and `knot` ties them: what stands inside
//! a phrase is read by the rules again, one depth further in.
#![tactic(auto)]

mod files;
mod item;
pub mod knot;
mod linkages;
mod parts;

pub use files::file;
pub use item::{items, one_item};
pub use knot::{defining, inside};
pub use linkages::linkage;
