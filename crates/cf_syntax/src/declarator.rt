use crate::expression::Expr;
use crate::name::Name;
use crate::specifier::{Pointer, TypeSpecifier};
use cf_base::{Boxed, Items};

/// A declarator (8), with or without a name.
#[cycle(ast)]
#[derive(Drop)]
pub enum DeclTree {
    /// No name, at the token behind it, in a parameter or a type in brackets (8.1).
    Unnamed,
    /// The declared name.
    Declared(Name),
    /// An operator before a declarator (8.2.1 to 8.2.3).
    Pointed(Pointer, Boxed<DeclTree>),
    /// A declarator in brackets, at the bracket.
    Bracketed(u32, Boxed<DeclTree>),
    /// A declarator with parameters, at the bracket, and whether `const` follows (8.2.5).
    Function(u32, Boxed<DeclTree>, Items<Param>, bool),
    /// A declarator with a bound or none, at the bracket (8.2.4).
    Array(u32, Boxed<DeclTree>, Option<Boxed<Expr>>),
}

/// A parameter (8.2.5), at its first token.
#[cycle(ast)]
#[derive(Drop)]
pub struct Param {
    pub at: u32,
    pub specifiers: Items<TypeSpecifier>,
    pub declarator: Boxed<DeclTree>,
    /// The place of `=` with the default argument behind it (8.2.6).
    pub default: Option<(u32, Boxed<Expr>)>,
}

/// A type in brackets (8.1), at its first token.
#[cycle(ast)]
#[derive(Drop)]
pub struct TypeId {
    pub at: u32,
    pub specifiers: Items<TypeSpecifier>,
    pub declarator: Boxed<DeclTree>,
}
