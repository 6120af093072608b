use crate::class::FunctionDef;
use crate::declaration::Declaration;
use cf_base::{Boxed, Bytes, Items};

/// A source file (17).
#[derive(Drop)]
pub struct Unit {
    pub items: Items<Item>,
}

/// What a file is made of (17).
#[derive(Drop)]
pub enum Item {
    /// A function with its body (8.3).
    Function(Boxed<FunctionDef>),
    /// A declaration (7).
    Declaration(Boxed<Declaration>),
    /// A linkage specification (7.4).
    Linkage(Linkage),
}

/// A linkage specification (7.4), at `extern`.
#[derive(Drop)]
pub struct Linkage {
    pub at: u32,
    /// The place of the string, and the string.
    pub language: (u32, Bytes),
    /// Whether braces stand round the declarations.
    pub has_braces: bool,
    pub declarations: Items<Declaration>,
}
