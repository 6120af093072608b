use cf_base::{Boxed, Items};
use cf_syntax::Expr;

/// A value in an initialiser (8.4), at its first token.
#[cycle(initialisers)]
#[derive(Drop)]
pub enum Init {
    /// An expression.
    Value(u32, Boxed<Expr>),
    /// A list in braces (8.4.1).
    List(u32, Items<Init>),
}

/// What stands behind a declarator that is initialised (8.4).
#[derive(Drop)]
pub enum Initialiser {
    /// `= init`, at the `=`.
    Equals(u32, Boxed<Init>),
    /// `(args)`, at the bracket.
    Arguments(u32, Items<Expr>),
}
