//! Enumerations while a file is elaborated, behind the expressions of their enumerators (7.2).
//!
//! Each function does a row of the definitions of elaboration, and its contract cites the row by its name in `specs/Shut`.
#![tactic(auto)]

mod checks;
mod counted;
mod declaring;
mod names;
mod numbers;

pub use checks::{check_constant, check_ints, check_place};
pub use counted::Counted;
pub use declaring::{declare_all, declare_counted, declare_name, declare_own, know_name};
pub use names::{check_all_new, check_name};
pub use numbers::{int_or_zero, number_of, number_or_zero, one_more};
