/// What a limit counts. `docs/limits.md` has the most of each.
#[derive(Clone, Copy, Debug, PartialEq, Eq)]
pub enum Bound {
    /// Bytes of a source file.
    Bytes,
    /// Tokens of a source file.
    Tokens,
    /// Open brackets and tokens since the last reset, in a source file or a text of the small C.
    Nesting,
    /// Defined classes of a file.
    Classes,
    /// Subobject paths of a class.
    Subobjects,
    /// Bytes of a type.
    Size,
    /// Bytes of a link name or of the description of a class.
    Names,
    /// Entries in the virtual tables of a file.
    Entries,
    /// Bytes of the frame of a function.
    Frame,
    /// Static objects with destructors in a file.
    Destroyed,
    /// Files of a job.
    Units,
    /// Bytes of a C text that is read.
    Text,
    /// Bytes of all variables of a linked program.
    Static,
    /// Tree nodes of a linked program that is run.
    Nodes,
}

/// A limit that was passed: an answer of its own, with the greatest count that is accepted.
#[derive(Clone, Copy, Debug, PartialEq, Eq)]
pub struct Limit {
    pub bound: Bound,
    pub most: u64,
}
