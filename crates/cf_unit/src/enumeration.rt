use cf_base::{Boxed, Bytes, Items};
use cf_syntax::Expr;

/// An enumeration that is defined (7.2), at `enum`.
#[derive(Drop)]
pub struct EnumDef {
    pub at: u32,
    /// The place of its name, and the name.
    pub name: Option<(u32, Bytes)>,
    pub enumerators: Items<Enumerator>,
}

/// An enumerator (7.2), at its name.
#[derive(Drop)]
pub struct Enumerator {
    pub at: u32,
    pub name: Bytes,
    /// The place of `=`, and the value behind it.
    pub value: Option<(u32, Boxed<Expr>)>,
}
