//! The first line of a text of the whole small C: `#pragma cfront`, a version, a newline.
//!
//! `first_line` gives the version and what stands behind the line, or what is left of the text where it stops having one. `specs/` says how
//! a line is read; a law says that this finds exactly the lines that a text may begin with.
#![tactic(auto)]

mod laws;
mod line;
mod version;

pub use laws::first_lines_are_found;
pub use line::first_line;
