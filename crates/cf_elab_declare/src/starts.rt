//! Initialisers of objects while a file is elaborated: plans carried out, and what a declaration initialises its object by (8.4).
//!
//! Each function does a row of the definitions of elaboration, or a step of one, and its contract cites it by its name in `specs/Shut`.

mod carrying;
mod starting;
mod starts;
mod written;

pub use starting::{check_constant, default_object, initialised, start_by, start_or_none, started};
pub use written::{Written, start_place};
