//! Definitions of objects while a file is elaborated: objects of a file, and static and automatic objects of a block (6.7, 7.1, 8.4).
//!
//! The parts of an initialiser are elaborated once the name is known, so each row is a function before them and one behind them. Each contract cites
//! its step by its name in `specs/Shut`, and `proofs/Rows` says that a row is its steps.

mod bounds;
mod files;
mod locals;
mod statics;

pub use bounds::array_given;
pub use files::file_defined;
pub use locals::{begin_local, local_defined};
pub use statics::{StaticLocal, begin_static_local, static_defined};
