//! Declarators of a file or a block with their initialisers, while a file is elaborated (7.1, 8.1, 8.4).
//!
//! A declarator's own bounds and parameters are elaborated before. Each contract cites a row of the definitions of elaboration by its name in
//! `specs/Shut`.

mod kinds;
mod named;
mod objects;

pub use cf_elab_declare::{
    check_conflict, check_no_definition, declare_function, declares_function,
};
pub use named::named_declarator;
