//! The ground that every crate stands on.
//!
//! It has what source and target share: lists and boxes that contracts see as plain values, the kinds of
//! integers, the numbered rules and limits, the traits of the outside with objects in memory that meet
//! them; and in `specs/` the integers of the language, events, the world of a run, and agreement.
#![tactic(auto)]

mod arith;
mod boxed;
mod clean;
mod compared;
mod failures;
mod files;
mod held;
mod items;
mod kind;
mod laws;
mod limit;
mod mem_files;
mod mem_sink;
mod mem_source;
mod memory;
mod planned;
mod room;
mod rule;
mod sink;
mod source;

pub use arith::Arith;
pub use boxed::Boxed;
pub use clean::{CleanFiles, CleanSink, CleanSource};
pub use failures::Failures;
pub use files::{Files, ReadErr, WriteErr};
pub use items::{Bytes, Items, Name};
pub use kind::Kind;
pub use laws::agreement_composes;
pub use limit::{Bound, Limit};
pub use mem_files::MemFiles;
pub use mem_sink::MemSink;
pub use mem_source::MemSource;
pub use memory::{Failed, Memory};
pub use rule::{Broken, Rule};
pub use sink::Sink;
pub use source::Source;

#[cfg(test)]
mod outside_tests;
