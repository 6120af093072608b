/// The inside of an open bracket.
#[derive(Clone, Copy, Debug, PartialEq, Eq)]
pub struct Level {
    /// The bracket, by the number of its word.
    pub word: u16,
    /// The place of the bracket.
    pub at: u32,
    /// How many tokens stand in it since the last reset.
    pub count: u32,
}
