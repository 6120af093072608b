//! Which units of plain statements have all functions ready to be lowered, by what registers hold before each action.
//!
//! `scene` is what the statements of a function stand in, `forms` types by what stands outermost in them, `content` what a register holds, `contents`
//! what they all hold, `meeting` what they hold where two ways meet, and `forgets` what is left where statements run from any label on. `types` has
//! what is asked of types and `takes` which values they take; `operands` is what operands give, `pointers` what conversions and operators on pointers
//! give, and `given` what any action gives. `asked` is what is asked of actions. `statements` has all statements of a function, `functions` whole
//! functions, and `unit` whole units.
#![tactic(auto)]

mod asked;
mod content;
mod contents;
mod forgets;
mod forms;
mod functions;
mod given;
mod meeting;
mod operands;
mod pointers;
mod scene;
mod statements;
mod takes;
mod types;
mod unit;

pub use unit::functions_are_ready;
