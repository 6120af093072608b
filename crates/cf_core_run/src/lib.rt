//! A plain program that runs cores of scalars and arrays of them as the manual's meaning says: the end and the trace of a run are exactly those that the
//! program means.
//!
//! The functions that were entered and have not ended, and what is left to do in each, stand in a list of marks, so the native stack
//! does not grow with the depth of calls.
#![tactic(auto)]

mod calls;
mod expressions;
mod leaving;
mod library;
mod lists;
mod machine;
mod mark;
mod state;
mod statements;
mod statics;
mod switch;
mod temporaries;

pub use machine::{run, start};
pub use mark::{Calling, Doing, Flow, FlowMark, Listing, Mark, Repeated, TestMark, ValueMark};
pub use state::{End, Event, Limits, Machine, Ran, RunEnd, Seen, Step};
