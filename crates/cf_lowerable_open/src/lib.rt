//! Whether the locals of plain functions are declared, begun and ended in order, as a test of plain units.
//!
//! `opened` is what is told of one local, `changes` what happens to each of a list, `lists` the lists, `ends` what is open where statements end,
//! `located` the places in objects that registers have, `objects` which object without a first value each register holds, `scene` and `ways` what statements stand in, `heads` what a statement is to
//! those before it, `labels` what is open at labels, `flags` the flags of temporaries, `actions` actions, `places` what is open behind statements that
//! hold no others, `forgets` the registers that statements set, `behind` the objects behind statements, `statements` what is open behind
//! statements, and `functions` the test.
#![tactic(auto)]

mod actions;
mod behind;
mod changes;
mod ends;
mod flags;
mod forgets;
mod functions;
mod heads;
mod labels;
mod lists;
mod located;
mod objects;
mod opened;
mod places;
mod scene;
mod statements;
mod ways;

pub use functions::functions_are_open;
