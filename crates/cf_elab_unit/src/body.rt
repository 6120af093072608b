//! Statements with all that is in them, while a file is elaborated (6).
//!
//! `specs/Shut` names what a statement is by the definitions of elaboration; the forms that are not built are kept out by `IsBuilt`.

mod built;
mod forms;
mod lists;
mod loops;
mod simple;
mod values;

pub use cf_elab_declaration::{
    check_no_definition, declaration, declare_function, declared_name, declares_function, shape_of,
    words,
};
pub use cf_elab_statement::block;
pub use forms::statement;
pub use lists::statements;
