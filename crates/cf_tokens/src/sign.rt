//! The signs of the language, operators and punctuation, each with its number (2.1).

/// `(`
pub const LEFT_PAREN: u8 = 0;
/// `)`
pub const RIGHT_PAREN: u8 = 1;
/// `[`
pub const LEFT_BRACKET: u8 = 2;
/// `]`
pub const RIGHT_BRACKET: u8 = 3;
/// `{`
pub const LEFT_BRACE: u8 = 4;
/// `}`
pub const RIGHT_BRACE: u8 = 5;
/// `;`
pub const SEMICOLON: u8 = 6;
/// `,`
pub const COMMA: u8 = 7;
/// `:`
pub const COLON: u8 = 8;
/// `::`
pub const SCOPE: u8 = 9;
/// `?`
pub const QUESTION: u8 = 10;
/// `.`
pub const DOT: u8 = 11;
/// `.*`
pub const DOT_STAR: u8 = 12;
/// `->`
pub const ARROW: u8 = 13;
/// `->*`
pub const ARROW_STAR: u8 = 14;
/// `...`
pub const ELLIPSIS: u8 = 15;
/// `~`
pub const TILDE: u8 = 16;
/// `!`
pub const NOT: u8 = 17;
/// `+`
pub const PLUS: u8 = 18;
/// `-`
pub const MINUS: u8 = 19;
/// `*`
pub const STAR: u8 = 20;
/// `/`
pub const SLASH: u8 = 21;
/// `%`
pub const PERCENT: u8 = 22;
/// `&`
pub const AMPERSAND: u8 = 23;
/// `|`
pub const BAR: u8 = 24;
/// `^`
pub const CARET: u8 = 25;
/// `<`
pub const LESS: u8 = 26;
/// `>`
pub const GREATER: u8 = 27;
/// `=`
pub const ASSIGN: u8 = 28;
/// `==`
pub const EQUAL: u8 = 29;
/// `!=`
pub const NOT_EQUAL: u8 = 30;
/// `<=`
pub const LESS_EQUAL: u8 = 31;
/// `>=`
pub const GREATER_EQUAL: u8 = 32;
/// `&&`
pub const AND: u8 = 33;
/// `||`
pub const OR: u8 = 34;
/// `<<`
pub const SHIFT_LEFT: u8 = 35;
/// `>>`
pub const SHIFT_RIGHT: u8 = 36;
/// `++`
pub const INCREMENT: u8 = 37;
/// `--`
pub const DECREMENT: u8 = 38;
/// `+=`
pub const PLUS_ASSIGN: u8 = 39;
/// `-=`
pub const MINUS_ASSIGN: u8 = 40;
/// `*=`
pub const STAR_ASSIGN: u8 = 41;
/// `/=`
pub const SLASH_ASSIGN: u8 = 42;
/// `%=`
pub const PERCENT_ASSIGN: u8 = 43;
/// `&=`
pub const AMPERSAND_ASSIGN: u8 = 44;
/// `|=`
pub const BAR_ASSIGN: u8 = 45;
/// `^=`
pub const CARET_ASSIGN: u8 = 46;
/// `<<=`
pub const SHIFT_LEFT_ASSIGN: u8 = 47;
/// `>>=`
pub const SHIFT_RIGHT_ASSIGN: u8 = 48;

/// The spelling of each sign, by its number.
pub const SPELLINGS: [&str; 49] = [
    "(", ")", "[", "]", "{", "}", ";", ",", ":", "::", "?", ".", ".*", "->", "->*", "...", "~",
    "!", "+", "-", "*", "/", "%", "&", "|", "^", "<", ">", "=", "==", "!=", "<=", ">=", "&&", "||",
    "<<", ">>", "++", "--", "+=", "-=", "*=", "/=", "%=", "&=", "|=", "^=", "<<=", ">>=",
];
