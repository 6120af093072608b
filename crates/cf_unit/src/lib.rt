//! The trees of statements, declarations, classes and files, and which tokens spell them.
//!
//! Each production of the grammar is a variant or a struct, with its place in bytes. The definitions in `specs/`
//! say which tree the tokens of a file spell, how the names that are types change from declaration to
//! declaration, what the nesting of a file is, and where the first token stands that the grammar cannot take.
#![tactic(auto)]

mod class;
mod declaration;
mod enumeration;
mod file;
mod initialiser;
mod laws;
mod nesting;
mod reading;
mod specifier;
mod statement;

pub use class::{
    Access, Base, BaseWord, ClassDef, FunctionDef, Member, MemberDeclarator, MemberInit,
};
pub use declaration::{Declaration, InitDeclarator};
pub use enumeration::{EnumDef, Enumerator};
pub use file::{Item, Linkage, Unit};
pub use initialiser::{Init, Initialiser};
pub use laws::{one_answer, one_file};
pub use nesting::Level;
pub use reading::Given;
pub use specifier::Specifier;
pub use statement::Stmt;
