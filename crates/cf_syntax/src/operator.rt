/// A unary operator before its operand (5.3).
#[derive(Clone, Copy, Debug, PartialEq, Eq)]
pub enum PrefixOp {
    Dereference,
    AddressOf,
    Plus,
    Minus,
    Not,
    Complement,
}

/// `++` or `--`, before or behind its operand (5.2.5, 5.3.1).
#[derive(Clone, Copy, Debug, PartialEq, Eq)]
pub enum StepOp {
    Increment,
    Decrement,
}

/// A binary operator (5.5 to 5.15).
#[derive(Clone, Copy, Debug, PartialEq, Eq)]
pub enum BinaryOp {
    LogicalOr,
    LogicalAnd,
    BitOr,
    BitXor,
    BitAnd,
    Equal,
    NotEqual,
    Less,
    Greater,
    LessEqual,
    GreaterEqual,
    ShiftLeft,
    ShiftRight,
    Add,
    Subtract,
    Multiply,
    Divide,
    Remainder,
    /// `.*`
    DotStar,
    /// `->*`
    ArrowStar,
}

/// An assignment operator (5.17).
#[derive(Clone, Copy, Debug, PartialEq, Eq)]
pub enum AssignOp {
    Assign,
    Multiply,
    Divide,
    Remainder,
    Add,
    Subtract,
    ShiftLeft,
    ShiftRight,
    BitAnd,
    BitXor,
    BitOr,
}
