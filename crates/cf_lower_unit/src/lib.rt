//! A file of plain statements as a unit of the small C.
//!
//! `items` has the items that are written, `library` the library's functions, `functions` the file's own functions, `variables` its static objects,
//! `literals` its string literals, `elsewhere` what it names and other files define, `starts` what constant initialisers store, and `unit` the whole.
#![tactic(auto)]

mod elsewhere;
mod functions;
mod items;
mod library;
mod literals;
mod starts;
mod unit;
mod variables;

pub use unit::lower;
