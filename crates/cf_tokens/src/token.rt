use cf_base::{Bytes, Kind};

/// What a token says.
#[derive(Debug, Drop)]
pub enum Word {
    /// An identifier, by its bytes (2.3).
    Ident(Bytes),
    /// A keyword, by its number in `keyword` (2.4).
    Keyword(u8),
    /// An integer constant, with the type that its form and its value give it (2.5.1).
    Int { value: u32, kind: Kind },
    /// A character constant, by its value as a `char` (2.5.2).
    Char(i8),
    /// A string literal with its neighbours, by its bytes without the ending 0 (2.5.4).
    Text(Bytes),
    /// An operator or punctuation, by its number in `sign` (2.1).
    Sign(u8),
}

/// A token of a file: what it says, the place of its first byte, and its length in bytes.
#[derive(Debug, Drop)]
pub struct Token {
    pub word: Word,
    pub at: u32,
    pub len: u32,
}
