use crate::defines::StaticLocal;

/// An object whose name is declared, and whose initialiser comes next (3.3, 6.7).
#[derive(Debug, Drop)]
pub enum Begun {
    /// One that is declared and not defined here.
    Declared,
    /// One of the file, whose name is local to the file or not.
    InFile(bool),
    /// A static object of a block.
    Static(StaticLocal),
    /// An automatic object of this number.
    Local(u32),
}
