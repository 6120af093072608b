//! Implicit conversions of values while a file is elaborated: what is read and decays, the steps of a conversion, and Fit and Truth (4, 6.4.1).
//!
//! Each function does a row of the definitions of elaboration, and its contract cites the row by its name in `specs/Shut`.
#![tactic(auto)]

mod condition;
mod conversion;
mod fitting;
mod reading;
mod step;

pub use cf_elab_numbers::{
    both_true, complement, inverted, negative, one_true, operand_kind, operated, operator_kind,
    result_kind,
};
pub use condition::truth;
pub use conversion::{convert, steps};
pub use fitting::{fit, to_kind};
pub use reading::{plain, read};
