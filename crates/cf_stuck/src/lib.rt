//! Where a file is refused (17): the first element in braces, or of the file, that has no spelling.
//!
//! `stuck` goes through the tokens of a file by the finders of `cf_stuck_statement` and those of this crate, for
//! declarations, functions with bodies, members, classes and items, and `knot` ties them.
#![tactic(auto)]

mod bodies;
mod class;
mod declared;
mod knot;
mod rows;
mod seeker;
mod whole_file;
mod words;

pub use whole_file::stuck;
