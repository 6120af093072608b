//! What is at hand while names, specifiers and expressions are read.

use crate::asked::Asked;
use crate::expression::Expr;
use crate::name::Name;
use crate::operator::StepOp;
use crate::specifier::TypeSpecifier;
use cf_base::{Boxed, Bytes, Items};

/// The classes that qualify a name, as far as they were read (5.1).
#[derive(Drop)]
pub struct Qualifiers {
    /// Whether `::` stands before the first name.
    pub from_file: bool,
    /// The names of the classes, from the outside.
    pub names: Items<Bytes>,
    /// The numbers of those that are classes.
    pub classes: Items<u32>,
    /// What is asked for the next name.
    pub asked: Asked,
}

/// Specifiers, as far as they were read (7.1).
#[derive(Drop)]
pub struct Specifiers {
    pub list: Items<TypeSpecifier>,
    /// Whether one of them names a type.
    pub has_type: bool,
}

/// What stands behind an operand (5.2), at its first token.
#[derive(Drop)]
pub enum Suffix {
    Index(u32, Boxed<Expr>),
    Call(u32, Items<Expr>),
    Dot(u32, Name),
    Arrow(u32, Name),
    Step(u32, StepOp),
}

/// Whether a declarator has a name (8, 8.1).
#[derive(Clone, Copy, Debug, PartialEq, Eq)]
pub enum DeclaratorKind {
    /// It has one.
    Named,
    /// It has none.
    Abstract,
    /// It may have one.
    Either,
}
