//! Declarators of a file or a block behind their parts, while a file is elaborated: what their specifiers and bounds say, and the rows of type names,
//! functions and objects (7.1, 8.1, 8.2, 8.4).
//!
//! The parts of an initialiser are elaborated once the name is known, so an object is a function before them and one behind them. Each contract cites a
//! row of the definitions of elaboration, or a step of one, by its name in `specs/Shut`, and `proofs/Rows` says that a row is its steps.

mod begun;
mod checks;
mod functions;
mod heads;
mod names;
mod objects;
mod saying;

pub use begun::Begun;
pub use checks::{check_conflict, check_no_definition, declares_function};
pub use functions::{declare_function, function_declared};
pub use heads::{Headed, head};
pub use names::identifier;
pub use objects::{begin, check_object, finish};
pub use saying::object_says;
