use crate::name::Path;

/// A word of a declaration that names no type (7.1).
#[derive(Clone, Copy, Debug, PartialEq, Eq)]
pub enum Storage {
    Auto,
    Register,
    Static,
    Extern,
    Inline,
    Virtual,
    Friend,
    Typedef,
}

/// A word that names a fundamental type or a part of one (7.1.6).
#[derive(Clone, Copy, Debug, PartialEq, Eq)]
pub enum BasicType {
    Char,
    Short,
    Int,
    Long,
    Signed,
    Unsigned,
    Void,
}

/// The word before the name of a class or an enumeration (7.1.6).
#[derive(Clone, Copy, Debug, PartialEq, Eq)]
pub enum ClassKey {
    Class,
    Struct,
    Enum,
}

/// A specifier that defines nothing (7.1).
#[derive(Drop)]
pub enum TypeSpecifier {
    Storage(u32, Storage),
    Const(u32),
    Basic(u32, BasicType),
    /// `class A`, `struct A` or `enum A`, at its first word.
    Elaborated(u32, ClassKey, Path),
    Named(Path),
}

/// An operator of a declarator before the name (8.2.1 to 8.2.3).
#[derive(Drop)]
pub enum Pointer {
    /// `*`, and whether `const` follows.
    To(u32, bool),
    /// `&`
    Reference(u32),
    /// `A::*`, and whether `const` follows.
    ToMember(u32, Path, bool),
}
