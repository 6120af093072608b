//! The trees of a source file, and the names that are types while it is read.
//!
//! Each production of the grammar is a variant or a struct, with its place in bytes. The trees are two
//! families: expressions with declarators, parameters and types in brackets; and statements with classes
//! and declarations, which hold them. `TypeNames` knows which names are types in the scopes that are open.
#![tactic(auto)]

mod asked;
mod copied;
mod declarator;
mod entries;
mod expression;
mod laws;
mod lookup;
mod name;
mod operator;
mod reading;
mod slot;
mod specifier;
mod type_names;

pub use asked::Asked;
pub use declarator::{DeclTree, Param, TypeId};
pub use expression::Expr;
pub use laws::{one_longest_declarator, one_longest_expression, one_tree};
pub use name::{Last, Name, Path};
pub use operator::{AssignOp, BinaryOp, PrefixOp, StepOp};
pub use reading::{DeclaratorKind, Qualifiers, Specifiers, Suffix};
pub use specifier::{BasicType, ClassKey, Pointer, Storage, TypeSpecifier};
pub use type_names::{NameKind, TypeNames};
