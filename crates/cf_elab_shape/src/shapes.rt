//! Declarators while a file is elaborated, and the types that they make (8.1, 8.2).
//!
//! Each function does a row of the definitions of elaboration, and its contract cites the row by its name in `specs/Shut`. So far no declarator is a
//! pointer to a member, and no parameter has a default argument.

mod arrays;
mod bounds;
mod forms;
mod functions;
mod parameter_list;
mod pointers;
mod position;
mod shape;
mod shaped;
mod typing;

pub use bounds::check_bounds;
pub use parameter_list::{check_parameter, only_parameter};
pub use pointers::pointed;
pub use position::Position;
pub use shape::{Parameter, Shape};
pub use shaped::{Shaped, as_object};
pub use typing::typed;
