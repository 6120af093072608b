//! What a file begins and ends with while it is elaborated: the functions of the library are declared, and what it declares it defines; and linkage
//! specifications (3.4, 7.4).
//!
//! Each function does a row of the definitions of elaboration, and its contract cites the row by its name in `specs/Shut`.
#![tactic(auto)]

mod defined;
mod known;
mod library;
mod linkage;

pub use defined::check_all_defined;
pub use known::is_library;
pub use library::begun;
pub use linkage::check_linkage;
