//! Which units of plain statements have all functions in place, as lowering asks of them.
//!
//! `content` is what a register holds and `contents` what they all hold, with `setting` for what an action leaves there. `locals` has what is asked of
//! locals, `library` of names, `operands` of what operands hold, `scalars` of what scalars take, `leaves` of statements of one action, `calls` of
//! calls, and `labels` of labels. `statements` has all statements of a function, `functions` whole functions, and `unit` whole units.
#![tactic(auto)]

mod calls;
mod content;
mod contents;
mod functions;
mod labels;
mod leaves;
mod library;
mod locals;
mod operands;
mod scalars;
mod setting;
mod statements;
mod unit;

pub use unit::functions_are_in_place;
