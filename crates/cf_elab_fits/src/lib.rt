//! Whether a file's tree is as those of texts are: constants are of their types, and labels stand in the braces of a `switch` alone.
//!
//! The law of valid cores asks it of a tree (`cf_elab_valid_files/specs/File/Laws`), since no law of the grammar says it yet. Of each part there is one
//! walk, whose contract is one equation with that definition.
#![tactic(auto)]

mod constants;
mod declarations;
mod expressions;
mod files;
mod statements;

pub use files::file_fits;
