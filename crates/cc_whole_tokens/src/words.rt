ghost use Rattle.std.specs.Prelude.{◌≡◌, ◌&&◌, not};
ghost use Rattle.std.specs.Char.{is_ascii_digit};
ghost use Rattle.std.specs.List.{list_all};
ghost use Rattle.cc_whole_tokens.specs.Token as spec;

use crate::mark::WORDS;

fn is_word_byte(byte: u8) -> bool
    ensures { result ≡ spec.is_word_byte byte }
{
    byte.is_ascii_alphanumeric() || byte == b'_'
}

fn begins_word(bytes: &[u8]) -> bool
    ensures { result ≡ spec.begins (λ b. spec.is_word_byte b && not (is_ascii_digit b)) bytes.now }
{
    match bytes {
        [] => false,
        [byte, ..] => is_word_byte(*byte) && !byte.is_ascii_digit(),
    }
}

fn all_word_bytes(bytes: &[u8]) -> bool
    ensures { result ≡ list_all spec.is_word_byte bytes.now }
{
    bytes.iter().all(|byte| is_word_byte(*byte))
}

fn is_reserved(bytes: &[u8]) -> bool
    ensures { result ≡ spec.is_reserved bytes.now }
{
    WORDS.iter().any(|mark| mark.text().as_bytes() == bytes)
}

fn is_word(bytes: &[u8]) -> bool
    ensures { result ≡ spec.is_word bytes.now }
{
    begins_word(bytes) && all_word_bytes(bytes)
}

/// Whether these bytes are a name: letters, digits and `_`, a digit not first, and no reserved word.
pub fn is_name(bytes: &[u8]) -> bool
    ensures { result ≡ spec.is_name bytes.now }
{
    is_word(bytes) && !is_reserved(bytes)
}
