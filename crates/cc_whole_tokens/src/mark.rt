ghost use Rattle.std.specs.Prelude.{◌≡◌};
ghost use Rattle.cc_whole_tokens.specs.Mark.{mark_text, same_mark};

/// A sign or a reserved word of the whole small C.
#[derive(Clone, Copy, Debug, PartialEq, Eq)]
pub enum Mark {
    // Signs.
    LeftParen,
    RightParen,
    LeftBrace,
    RightBrace,
    LeftBracket,
    RightBracket,
    Comma,
    Colon,
    Semicolon,
    Assign,
    Star,
    Slash,
    Percent,
    Plus,
    Minus,
    ShiftLeft,
    ShiftRight,
    Less,
    Greater,
    LessEqual,
    GreaterEqual,
    Equal,
    NotEqual,
    And,
    Xor,
    Or,
    Not,
    Complement,
    // Words.
    Break,
    Case,
    Char,
    Continue,
    Default,
    Else,
    Extern,
    For,
    If,
    Int,
    Return,
    Short,
    Static,
    Struct,
    Switch,
    Unsigned,
    Void,
    /// `__e`, the tag of a pair of an int and a function pointer.
    Pair,
    /// `__f`, the type of a function pointer.
    FunctionPointer,
}

/// The words.
pub const WORDS: [Mark; 19] = [
    Mark::Break,
    Mark::Case,
    Mark::Char,
    Mark::Continue,
    Mark::Default,
    Mark::Else,
    Mark::Extern,
    Mark::For,
    Mark::If,
    Mark::Int,
    Mark::Return,
    Mark::Short,
    Mark::Static,
    Mark::Struct,
    Mark::Switch,
    Mark::Unsigned,
    Mark::Void,
    Mark::Pair,
    Mark::FunctionPointer,
];

/// The signs, the longer ones first.
pub const SIGNS: [Mark; 28] = [
    Mark::ShiftLeft,
    Mark::ShiftRight,
    Mark::LessEqual,
    Mark::GreaterEqual,
    Mark::Equal,
    Mark::NotEqual,
    Mark::LeftParen,
    Mark::RightParen,
    Mark::LeftBrace,
    Mark::RightBrace,
    Mark::LeftBracket,
    Mark::RightBracket,
    Mark::Comma,
    Mark::Colon,
    Mark::Semicolon,
    Mark::Assign,
    Mark::Star,
    Mark::Slash,
    Mark::Percent,
    Mark::Plus,
    Mark::Minus,
    Mark::Less,
    Mark::Greater,
    Mark::And,
    Mark::Xor,
    Mark::Or,
    Mark::Not,
    Mark::Complement,
];

impl Mark {
    /// Whether it is this one.
    #[tactic(auto, unfolding(crate::specs::Mark::same_mark))]
    pub fn is(self, other: Mark) -> bool
        ensures { result ≡ same_mark self other }
    {
        self == other
    }

    /// Its bytes in a text.
    pub fn text(self) -> &'static str
        ensures { result.now ≡ mark_text self }
    {
        match self {
            Mark::LeftParen => "(",
            Mark::RightParen => ")",
            Mark::LeftBrace => "{",
            Mark::RightBrace => "}",
            Mark::LeftBracket => "[",
            Mark::RightBracket => "]",
            Mark::Comma => ",",
            Mark::Colon => ":",
            Mark::Semicolon => ";",
            Mark::Assign => "=",
            Mark::Star => "*",
            Mark::Slash => "/",
            Mark::Percent => "%",
            Mark::Plus => "+",
            Mark::Minus => "-",
            Mark::ShiftLeft => "<<",
            Mark::ShiftRight => ">>",
            Mark::Less => "<",
            Mark::Greater => ">",
            Mark::LessEqual => "<=",
            Mark::GreaterEqual => ">=",
            Mark::Equal => "==",
            Mark::NotEqual => "!=",
            Mark::And => "&",
            Mark::Xor => "^",
            Mark::Or => "|",
            Mark::Not => "!",
            Mark::Complement => "~",
            Mark::Break => "break",
            Mark::Case => "case",
            Mark::Char => "char",
            Mark::Continue => "continue",
            Mark::Default => "default",
            Mark::Else => "else",
            Mark::Extern => "extern",
            Mark::For => "for",
            Mark::If => "if",
            Mark::Int => "int",
            Mark::Return => "return",
            Mark::Short => "short",
            Mark::Static => "static",
            Mark::Struct => "struct",
            Mark::Switch => "switch",
            Mark::Unsigned => "unsigned",
            Mark::Void => "void",
            Mark::Pair => "__e",
            Mark::FunctionPointer => "__f",
        }
    }
}
