//! What of the language a file's tree has that is not built so far: the place of its first such form.
//!
//! `cf_elab/specs/Built` says form by form what is built. Of each part there is one walk, whose contract is one
//! equation with that definition.

mod declarations;
mod expressions;
mod files;
mod names;
mod place;
mod statements;

pub use files::not_built;
