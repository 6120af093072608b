//! Whether a file's core is as lowering asks (`CoreLowers` of `cf_sequence_lowered`), as far as that is decided here.
//!
//! `types` asks what is asked of types, `nodes` of each node, `files` of a file, and `literals` whether each literal has a name of its own. Names,
//! initialisers that are known, and what nodes are by the types of their parts, are not decided yet.
#![tactic(auto)]

mod files;
mod laws;
mod literals;
mod nodes;
mod types;

pub use files::looks;
pub use laws::looks_are_tests;
pub use literals::literals_differ;
