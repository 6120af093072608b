//! The programs that the plain program runs: functions over scalars and arrays of them, whose trees have the forms that it knows. In `specs/` stands
//! what each tree is as a core.
#![tactic(auto)]

mod node;
mod program;
mod shape;

pub use node::{Binary, Change, Node, Operation, Unary};
pub use program::{Program, RunFn, RunStatic, Signature};
pub use shape::{Bounds, Form, ObjectType, Shape};
