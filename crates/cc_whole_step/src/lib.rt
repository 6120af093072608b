//! The machine of the whole small C: the moments of a run, and the steps from each to the next, exactly as programs mean.
//!
//! What remains to be done stands on a stack of marks, so the depth of a run does not rest on the host's stack. What a moment
//! means is the rest of its run (`specs/Running`), and each step keeps it.
#![tactic(auto)]

mod calls;
mod exits;
mod frames;
mod functions;
mod leaving;
mod library;
mod mark;
mod moment;
mod statements;
mod step;
mod stop;
mod switch;

pub use frames::Frames;
pub use mark::{Doing, Flow, Level, Mark};
pub use moment::{End, Moment, Shown, Step};
pub use stop::Stop;
