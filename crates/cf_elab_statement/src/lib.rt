//! Statements while a file is elaborated (6).
//!
//! A statement with bodies is done in steps: what is said to the function at hand before a body, what is said behind it, and what is made of the
//! parts. Each contract cites its step by a name in `specs/Shut`; the laws in `proofs/Rows` say that the rows of the definitions of elaboration are
//! these steps.
#![tactic(auto)]

mod jumps;
mod labels;
mod labels_before;
mod loops;
mod simple;
mod switch;

pub use jumps::{
    Jumps, begin_loop, begin_switch, break_statement, continue_statement, end_loop, end_switch,
    return_statement,
};
pub use loops::{condition, for_statement, if_statement, loop_statement};
pub use simple::{
    block, case_label, declaration, default_label, empty_statement, expression_statement,
};
pub use switch::switch_statement;
