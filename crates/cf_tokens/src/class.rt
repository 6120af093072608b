ghost use Rattle.std.specs.Prelude.{◌≡◌, ◌≤◌, length, get_or, true};
ghost use Rattle.cf_tokens.specs.Class.{has, run, leading, behind};

/// A class of bytes (2.1, 2.3, 2.5).
#[derive(Clone, Copy)]
pub(crate) enum Class {
    /// Space, tab, newline, vertical tab, form feed and carriage return.
    Blank,
    Digit,
    OctalDigit,
    HexDigit,
    /// Letters and `_`.
    Letter,
    /// Letters, digits and `_`.
    NameByte,
    /// All but the newline.
    InLine,
    /// All but `"`.
    InQuotes,
}

impl Class {
    pub(crate) fn has(self, byte: u8) -> bool
        ensures { result ≡ has self byte }
    {
        match self {
            Class::Blank => byte == b' ' || (b'\t'..=b'\r').contains(&byte),
            Class::Digit => is_digit(byte),
            Class::OctalDigit => (b'0'..=b'7').contains(&byte),
            Class::HexDigit => is_digit(byte)
                || (b'A'..=b'F').contains(&byte)
                || (b'a'..=b'f').contains(&byte),
            Class::Letter => is_letter(byte),
            Class::NameByte => is_letter(byte) || is_digit(byte),
            Class::InLine => byte != b'\n',
            Class::InQuotes => byte != b'"',
        }
    }

    /// How many bytes of the class stand at the front.
    pub(crate) fn run(self, bytes: &[u8]) -> usize
        ensures count { result ≡ run self bytes.now }
        ensures within { result ≤ length bytes.now }
        ensures some { 1 ≤ length bytes.now → has self (get_or bytes.now 0 0) ≡ true → 1 ≤ result }
    {
        bytes.iter().take_while(|byte| self.has(**byte)).count()
    }

    /// The bytes of the class at the front.
    pub(crate) fn leading(self, bytes: &[u8]) -> &[u8]
        ensures bytes { result.now ≡ leading self bytes.now }
        ensures within { length result.now ≤ length bytes.now }
        ensures some { 1 ≤ length bytes.now → has self (get_or bytes.now 0 0) ≡ true → 1 ≤ length result.now }
    {
        &bytes[..self.run(bytes)]
    }

    /// What stands behind the bytes of the class at the front.
    pub(crate) fn behind(self, bytes: &[u8]) -> &[u8]
        ensures { result.now ≡ behind self bytes.now }
    {
        &bytes[self.run(bytes)..]
    }
}

ghost use Rattle.cf_tokens.specs.Class.{is_digit, is_letter};

fn is_digit(byte: u8) -> bool
    ensures { result ≡ is_digit byte }
{
    (b'0'..=b'9').contains(&byte)
}

fn is_letter(byte: u8) -> bool
    ensures { result ≡ is_letter byte }
{
    (b'A'..=b'Z').contains(&byte) || (b'a'..=b'z').contains(&byte) || byte == b'_'
}
