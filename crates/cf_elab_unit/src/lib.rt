//! Statements, functions with a body and whole files by their trees: `elab`.
#![tactic(auto)]

mod body;
mod definitions;
mod unit;

pub use body::{
    block, check_no_definition, declaration, declare_function, declared_name, declares_function,
    shape_of, statement, statements, words,
};
pub use definitions::definition;
pub use unit::elab;
