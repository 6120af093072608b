//! Operators on integers and enumerations while a file is elaborated (5.3, 5.6 to 5.15).
//!
//! Each function does a row of the definitions of elaboration, and its contract cites the row by its name in `specs/Shut`.

mod integers;
mod logical;
mod refusals;
mod sorts;

pub use cf_elab_fit::{convert, plain, steps, to_kind, truth};
pub use integers::{complemented, integer, negated, on_kinds};
pub use logical::{conjunction, disjunction, negation};
pub use refusals::broken;
pub use sorts::{
    integral_at, is_complete, is_enum, is_pointer, is_void_pointer, kind_at, object_at, target_at,
};
