//! The classes and enumerations of a file: what they are called, and what they are made of.
//!
//! `specs/` has the definitions on classes: subobjects and their paths, lookup by dominance, overriders, sizes and
//! offsets, virtual tables, needed functions, link names and descriptions; and what it is for types and classes to fit.
#![tactic(auto)]

mod class;
mod classes;
mod label;
mod laws;
mod path;
mod sizes;

pub use class::{Access, BaseDef, ClassDef, Friend, MemberDef, MemberRef, What};
pub use classes::Classes;
pub use label::Label;
pub use laws::{names_are_decoded, names_tell_entities_apart};
pub use path::{Path, Step};

#[cfg(test)]
mod tests;
