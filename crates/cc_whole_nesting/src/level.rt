use crate::kind::Bracket;

/// A level with an open bracket.
#[derive(Clone, Copy, Debug)]
pub struct Level {
    pub bracket: Bracket,
    /// Its tokens since the last reset, the bracket included.
    pub count: u32,
}
