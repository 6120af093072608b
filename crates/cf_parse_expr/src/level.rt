/// Which expression is read.
#[derive(Clone, Copy, Debug, PartialEq, Eq)]
pub enum Level {
    /// Expressions with commas between them, or one (5.18).
    Commas,
    /// An expression without commas outside brackets (5.17).
    Assign,
    /// An expression that assigns nothing outside brackets (5.16).
    Condition,
}
