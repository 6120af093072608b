//! Unary operators, increments and subscripts while a file is elaborated (5.2.1, 5.2.5, 5.3).
//!
//! Each function does a row of the definitions of elaboration, and its contract cites the row by its name in `specs/Shut`.

mod changes;
mod places;
mod pointers;
mod prefix;
mod subscripts;

pub use changes::{check_modifiable, increment};
pub use places::address_of;
pub use pointers::{check_complete, stays_fixed};
pub use prefix::prefixed;
pub use subscripts::subscript;
