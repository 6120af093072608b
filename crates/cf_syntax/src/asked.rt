/// What is asked for the next name of a qualified name (5.1, 10.4).
#[derive(Clone, Copy, Debug, PartialEq, Eq)]
pub enum Asked {
    /// The open scopes: the name stands first.
    Scopes,
    /// The file's scope: `::` stands before it.
    File,
    /// The class of this number and its bases: it qualifies the name.
    Class(u32),
    /// Nothing: a type that is no class stands before `::`.
    Nothing,
}
