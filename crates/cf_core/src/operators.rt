/// The operators on one promoted integer that change it (5.3).
#[derive(Clone, Copy, Debug, PartialEq, Eq)]
pub enum UnaryOperator {
    Negate,
    Complement,
}

/// The operators with a pointer to an object, on the left or on both sides (5.7, 5.9, 5.10).
#[derive(Clone, Copy, Debug, PartialEq, Eq)]
pub enum PointerOperator {
    /// A pointer and an integer, in either order.
    Add,
    /// A pointer less an integer.
    Subtract,
    /// The number of elements between two pointers.
    Difference,
    Less,
    Greater,
    LessEqual,
    GreaterEqual,
    Equal,
    NotEqual,
}

/// Where a loop tests its condition, and which statement it was written as (6.5).
#[derive(Clone, Copy, Debug, PartialEq, Eq)]
pub enum LoopForm {
    While,
    Do,
    For,
}
