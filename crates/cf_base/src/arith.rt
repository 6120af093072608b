/// The operators on two integers (5.6 to 5.13).
#[derive(Clone, Copy, Debug, PartialEq, Eq)]
pub enum Arith {
    Multiply,
    Divide,
    Remainder,
    Add,
    Subtract,
    ShiftLeft,
    ShiftRight,
    Less,
    Greater,
    LessEqual,
    GreaterEqual,
    Equal,
    NotEqual,
    And,
    Xor,
    Or,
}
