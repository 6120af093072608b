//! Enumerations, initialisers, declarators and declarations by their trees.
#![tactic(auto)]

mod declarations;
mod declarators;
mod enums;
mod written_trees;

pub use declarations::{declaration, words};
pub use declarators::{
    check_conflict, check_no_definition, declare_function, declares_function, named_declarator,
};
pub use enums::{declared_name, enumeration, evaluated, shape_of};
pub use written_trees::{initial_at, outline, parts_of, tree_of, written};
