//! Which cores are built so far: the place of the first construct that sequencing has no form for.
//!
//! `specs/Unbuilt` has the place node by node.
#![tactic(auto)]

mod arms;
mod constants;
mod files;
mod statements;
mod types;
mod values;

pub use files::unbuilt;
