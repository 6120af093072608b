use crate::specifier::Specifier;
use crate::statement::Stmt;
use cf_base::{Boxed, Bytes, Items};
use cf_syntax::{ClassKey, DeclTree, Expr, Path};

/// Who may use a member (11).
#[derive(Clone, Copy, Debug, PartialEq, Eq)]
pub enum Access {
    Public,
    Protected,
    Private,
}

/// A word before a base (10).
#[derive(Clone, Copy, Debug, PartialEq, Eq)]
pub enum BaseWord {
    Virtual,
    Public,
    Private,
}

/// A base of a class (10), at its first token.
#[derive(Drop)]
pub struct Base {
    pub at: u32,
    /// The words before the name, each with its place.
    pub words: Items<(u32, BaseWord)>,
    pub path: Path,
}

/// A class that is defined (9), at its key.
#[cycle(statements)]
#[derive(Drop)]
pub struct ClassDef {
    pub at: u32,
    pub key: ClassKey,
    /// The place of its name, and the name.
    pub name: Option<(u32, Bytes)>,
    pub bases: Items<Base>,
    pub members: Items<Member>,
}

/// A member of a class (9.2).
#[cycle(statements)]
#[derive(Drop)]
pub enum Member {
    /// `public:` and its kin, at the word (11.1).
    Access(u32, Access),
    /// A declaration up to its `;`, at its first token (9.2).
    Declaration(u32, Items<Specifier>, Items<MemberDeclarator>),
    /// A function with its body (9.3.2).
    Function(Boxed<FunctionDef>),
}

/// A declarator of a member (9.2), at its first token.
#[derive(Drop)]
pub struct MemberDeclarator {
    pub at: u32,
    pub declarator: Boxed<DeclTree>,
    /// The place of `=`, where `= 0` follows (10.3).
    pub pure: Option<u32>,
}

/// A function with its body (8.3), in a file or a class, at its first token.
#[cycle(statements)]
#[derive(Drop)]
pub struct FunctionDef {
    pub at: u32,
    pub specifiers: Items<Specifier>,
    /// The place of the declarator's first token.
    pub declarator_at: u32,
    pub declarator: Boxed<DeclTree>,
    /// What stands behind `:` (12.6.2).
    pub initialisers: Items<MemberInit>,
    /// The place of the `{`.
    pub body_at: u32,
    pub body: Items<Stmt>,
}

/// An initialiser of a base or a member (12.6.2), whose path has the place of its first token.
#[derive(Drop)]
pub struct MemberInit {
    pub path: Path,
    /// The place of the bracket.
    pub at: u32,
    pub arguments: Items<Expr>,
}
