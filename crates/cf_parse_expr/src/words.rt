//! The words of tokens by number: signs by their own numbers, keywords from 64 on, and then the other kinds.

ghost use Rattle.std.specs.Prelude.{◌≡◌};
ghost use Rattle.cf_syntax.specs.Grammar.{begins};

use crate::cursor::Cursor;

/// `(`
pub const LEFT_PAREN: u16 = 0;
/// `)`
pub const RIGHT_PAREN: u16 = 1;
/// `[`
pub const LEFT_BRACKET: u16 = 2;
/// `]`
pub const RIGHT_BRACKET: u16 = 3;
/// `{`
pub const LEFT_BRACE: u16 = 4;
/// `}`
pub const RIGHT_BRACE: u16 = 5;
/// `;`
pub const SEMICOLON: u16 = 6;
/// `,`
pub const COMMA: u16 = 7;
/// `:`
pub const COLON: u16 = 8;
/// `::`
pub const SCOPE: u16 = 9;
/// `?`
pub const QUESTION: u16 = 10;
/// `.`
pub const DOT: u16 = 11;
/// `->`
pub const ARROW: u16 = 13;
/// `~`
pub const TILDE: u16 = 16;
/// `*`
pub const STAR: u16 = 20;
/// `&`
pub const AMPERSAND: u16 = 23;
/// `=`
pub const EQUALS: u16 = 28;
/// `break`
pub const BREAK: u16 = 66;
/// `case`
pub const CASE: u16 = 67;
/// `class`
pub const CLASS: u16 = 70;
/// `const`
pub const CONST: u16 = 71;
/// `continue`
pub const CONTINUE: u16 = 72;
/// `default`
pub const DEFAULT: u16 = 73;
/// `delete`
pub const DELETE: u16 = 74;
/// `do`
pub const DO: u16 = 75;
/// `else`
pub const ELSE: u16 = 77;
/// `enum`
pub const ENUM: u16 = 78;
/// `extern`
pub const EXTERN: u16 = 79;
/// `for`
pub const FOR: u16 = 81;
/// `if`
pub const IF: u16 = 84;
/// `new`
pub const NEW: u16 = 88;
/// `operator`
pub const OPERATOR: u16 = 89;
/// `private`
pub const PRIVATE: u16 = 90;
/// `protected`
pub const PROTECTED: u16 = 91;
/// `public`
pub const PUBLIC: u16 = 92;
/// `return`
pub const RETURN: u16 = 94;
/// `sizeof`
pub const SIZEOF: u16 = 97;
/// `struct`
pub const STRUCT: u16 = 99;
/// `switch`
pub const SWITCH: u16 = 100;
/// `virtual`
pub const VIRTUAL: u16 = 108;
/// `while`
pub const WHILE: u16 = 111;
/// A string literal.
pub const TEXT: u16 = 131;
/// `public`, `protected` and `private`.
pub const ACCESS: [u16; 3] = [92, 91, 90];
/// The number of `this` among the keywords.
pub const THIS: u8 = 38;

/// Whether one of these words comes next.
pub fn begins(words: &[u16], c: &Cursor<'_>) -> bool
    ensures { result ≡ begins words.now c.now }
{
    let front = c.front();
    let mut rest = words;
    while let [first, behind @ ..] = rest {
        if front == *first {
            return true;
        }
        rest = behind;
    }
    false
}
