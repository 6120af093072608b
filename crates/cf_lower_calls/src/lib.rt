//! Laws: calls beside their C, from the values of the arguments to the caller behind them, and all functions of both programs by the bound of ticks.
#![tactic(auto)]

mod arguments;
mod born;
mod entered;
mod evaluated;
mod frames;
mod invoked;
mod library;
mod returns;

pub use arguments::arguments_stand_in_their_locals;
pub use born::frames_are_born;
pub use entered::{
    functions_are_alike, functions_are_alike_at_the_next_bound, functions_of_programs_are_alike,
};
pub use evaluated::{arguments_are_evaluated, arguments_enter};
pub use frames::{functions_begin, functions_end};
pub use invoked::{calls_lead_on, calls_that_are_kept_lead_on};
pub use library::{calls_through_pointers_lead_on, library_calls_lead_on};
pub use returns::callers_stand_again;
