use crate::initialiser::Initialiser;
use crate::specifier::Specifier;
use cf_base::{Boxed, Items};
use cf_syntax::DeclTree;

/// A declaration up to its `;` (7), at its first token.
#[cycle(statements)]
#[derive(Drop)]
pub struct Declaration {
    pub at: u32,
    pub specifiers: Items<Specifier>,
    pub declarators: Items<InitDeclarator>,
}

/// A declarator with its initialiser (8), at its first token.
#[derive(Drop)]
pub struct InitDeclarator {
    pub at: u32,
    pub declarator: Boxed<DeclTree>,
    pub initialiser: Option<Initialiser>,
}
