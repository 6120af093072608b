//! The keywords of the manual, each with its number (2.4).

/// `asm`
pub const ASM: u8 = 0;
/// `auto`
pub const AUTO: u8 = 1;
/// `break`
pub const BREAK: u8 = 2;
/// `case`
pub const CASE: u8 = 3;
/// `catch`
pub const CATCH: u8 = 4;
/// `char`
pub const CHAR: u8 = 5;
/// `class`
pub const CLASS: u8 = 6;
/// `const`
pub const CONST: u8 = 7;
/// `continue`
pub const CONTINUE: u8 = 8;
/// `default`
pub const DEFAULT: u8 = 9;
/// `delete`
pub const DELETE: u8 = 10;
/// `do`
pub const DO: u8 = 11;
/// `double`
pub const DOUBLE: u8 = 12;
/// `else`
pub const ELSE: u8 = 13;
/// `enum`
pub const ENUM: u8 = 14;
/// `extern`
pub const EXTERN: u8 = 15;
/// `float`
pub const FLOAT: u8 = 16;
/// `for`
pub const FOR: u8 = 17;
/// `friend`
pub const FRIEND: u8 = 18;
/// `goto`
pub const GOTO: u8 = 19;
/// `if`
pub const IF: u8 = 20;
/// `inline`
pub const INLINE: u8 = 21;
/// `int`
pub const INT: u8 = 22;
/// `long`
pub const LONG: u8 = 23;
/// `new`
pub const NEW: u8 = 24;
/// `operator`
pub const OPERATOR: u8 = 25;
/// `private`
pub const PRIVATE: u8 = 26;
/// `protected`
pub const PROTECTED: u8 = 27;
/// `public`
pub const PUBLIC: u8 = 28;
/// `register`
pub const REGISTER: u8 = 29;
/// `return`
pub const RETURN: u8 = 30;
/// `short`
pub const SHORT: u8 = 31;
/// `signed`
pub const SIGNED: u8 = 32;
/// `sizeof`
pub const SIZEOF: u8 = 33;
/// `static`
pub const STATIC: u8 = 34;
/// `struct`
pub const STRUCT: u8 = 35;
/// `switch`
pub const SWITCH: u8 = 36;
/// `template`
pub const TEMPLATE: u8 = 37;
/// `this`
pub const THIS: u8 = 38;
/// `throw`
pub const THROW: u8 = 39;
/// `try`
pub const TRY: u8 = 40;
/// `typedef`
pub const TYPEDEF: u8 = 41;
/// `union`
pub const UNION: u8 = 42;
/// `unsigned`
pub const UNSIGNED: u8 = 43;
/// `virtual`
pub const VIRTUAL: u8 = 44;
/// `void`
pub const VOID: u8 = 45;
/// `volatile`
pub const VOLATILE: u8 = 46;
/// `while`
pub const WHILE: u8 = 47;

/// The spelling of each keyword, by its number.
pub const SPELLINGS: [&str; 48] = [
    "asm",
    "auto",
    "break",
    "case",
    "catch",
    "char",
    "class",
    "const",
    "continue",
    "default",
    "delete",
    "do",
    "double",
    "else",
    "enum",
    "extern",
    "float",
    "for",
    "friend",
    "goto",
    "if",
    "inline",
    "int",
    "long",
    "new",
    "operator",
    "private",
    "protected",
    "public",
    "register",
    "return",
    "short",
    "signed",
    "sizeof",
    "static",
    "struct",
    "switch",
    "template",
    "this",
    "throw",
    "try",
    "typedef",
    "union",
    "unsigned",
    "virtual",
    "void",
    "volatile",
    "while",
];
