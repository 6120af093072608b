//! Whether a file's core is sound (`is_sound_file` of `cf_file_sound`), so that its meaning is never malformed.
//!
//! `types` asks what is asked of types, `proper` makes a table of which are as elaboration makes them, `forms` has what a node is by its form, `names` the
//! names of a file and of the library, `nodes` what is asked of each node, and `files` of a file. `mains` tells
//! whether a file has a `main` at all.
#![tactic(auto)]

mod files;
mod forms;
mod mains;
mod names;
mod nodes;
mod proper;
mod types;

pub use files::file_is_sound;
pub use mains::has_main;
