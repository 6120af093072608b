use crate::specifier::{Pointer, TypeSpecifier};
use cf_base::{Bytes, Items};

/// Names joined by `::`, with the place of the first token: a type's name (`qtype`), or a name that a
/// class key or a member initialiser takes (`qid`).
#[derive(Drop)]
pub struct Path {
    pub at: u32,
    /// Whether `::` stands before the first name.
    pub from_file: bool,
    pub names: Items<Bytes>,
}

/// A name with the classes that qualify it (5.1).
#[derive(Drop)]
pub struct Name {
    /// The place of the first token.
    pub at: u32,
    /// Whether `::` stands before the first name.
    pub from_file: bool,
    /// The names of the classes, from the outside.
    pub scopes: Items<Bytes>,
    /// The place of the last part.
    pub last_at: u32,
    pub last: Last,
}

/// The last part of a name.
#[derive(Drop)]
pub enum Last {
    Ident(Bytes),
    /// `~` and a name (12.4).
    Destructor(Bytes),
    /// `operator` and a sign, by its number in the table of link names (13.4).
    Operator(u8),
    /// `operator` and a type (12.3.2).
    Conversion(Items<TypeSpecifier>, Items<Pointer>),
}
