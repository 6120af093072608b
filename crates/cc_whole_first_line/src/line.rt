//! The parts of a first line, one after another.

ghost use Rattle.std.specs.Prelude.{◌≡◌, ◌≤◌, length, drop};
ghost use Rattle.std.specs.Char.{is_ascii_digit};
ghost use Rattle.std.specs.List.{prefix_len};
ghost use Rattle.cc_whole_tokens.specs.Cut as cut;
ghost use Rattle.cc_whole_tokens.specs.Token as token;
ghost use Rattle.cc_whole_tokens.specs.Token.{begins};
ghost use Rattle.cc_whole_first_line.specs.FirstLine as spec;

use crate::version::version_of;

const WORDS: &[u8] = b"#pragma cfront";

fn is_blank(byte: u8) -> bool
    ensures { result ≡ cut.is_blank byte }
{
    byte == b' ' || byte == b'\n'
}

fn is_word_byte(byte: u8) -> bool
    ensures { result ≡ token.is_word_byte byte }
{
    byte.is_ascii_alphanumeric() || byte == b'_'
}

fn begins_word(text: &[u8]) -> bool
    ensures { result ≡ begins token.is_word_byte text.now }
{
    match text {
        [] => false,
        [byte, ..] => is_word_byte(*byte),
    }
}

fn rest_of(text: &[u8], at: usize) -> &[u8]
    requires { at ≤ length text.now }
    ensures { result.now ≡ drop at text.now }
{
    &text[at..]
}

fn blanks_len(text: &[u8]) -> usize
    ensures value { result ≡ prefix_len cut.is_blank text.now }
    ensures within { result ≤ length text.now }
{
    text.iter().take_while(|byte| is_blank(**byte)).count()
}

fn spaces_len(text: &[u8]) -> usize
    ensures value { result ≡ prefix_len spec.is_space text.now }
    ensures within { result ≤ length text.now }
{
    text.iter().take_while(|byte| **byte == b' ').count()
}

fn digits_len(text: &[u8]) -> usize
    ensures value { result ≡ prefix_len is_ascii_digit text.now }
    ensures within { result ≤ length text.now }
{
    text.iter().take_while(|byte| byte.is_ascii_digit()).count()
}

fn without_blanks(text: &[u8]) -> &[u8]
    ensures { result.now ≡ spec.without cut.is_blank text.now }
{
    rest_of(text, blanks_len(text))
}

fn without_spaces(text: &[u8]) -> &[u8]
    ensures { result.now ≡ spec.without spec.is_space text.now }
{
    rest_of(text, spaces_len(text))
}

/// The newline, behind the version.
#[tactic(auto, unfolding(crate::specs::FirstLine::from_end))]
fn from_end(version: u32, text: &[u8]) -> Result<(u32, &[u8]), &[u8]>
    ensures { spec.found_in result ≡ spec.from_end version text.now }
{
    match text {
        [b'\n', rest @ ..] => Ok((version, rest)),
        _ => Err(text),
    }
}

/// The version that these first digits of a text write, where no letter follows.
#[tactic(auto, unfolding(crate::specs::FirstLine::number_in))]
fn number_in(text: &[u8], len: usize) -> Option<u32>
    requires { len ≤ length text.now }
    ensures { result ≡ spec.number_in len text.now }
{
    if begins_word(rest_of(text, len)) {
        None
    } else {
        version_of(&text[..len])
    }
}

/// The version, and what stands behind it.
#[tactic(auto, unfolding(crate::specs::FirstLine::from_number))]
fn from_number(text: &[u8]) -> Result<(u32, &[u8]), &[u8]>
    ensures { spec.found_in result ≡ spec.from_number text.now }
{
    let len = digits_len(text);
    match number_in(text, len) {
        Some(version) => from_end(version, without_spaces(rest_of(text, len))),
        None => Err(text),
    }
}

/// Whether the words of a first line stand at the front.
fn begins_words(text: &[u8]) -> bool
    ensures { result ≡ spec.begins_words text.now }
{
    text.starts_with(WORDS) && !begins_word(&text[14..])
}

#[tactic(auto, unfolding(crate::specs::FirstLine::from_words))]
fn from_words(text: &[u8]) -> Result<(u32, &[u8]), &[u8]>
    ensures { spec.found_in result ≡ spec.from_words text.now }
{
    if begins_words(text) {
        from_number(without_blanks(&text[14..]))
    } else {
        Err(text)
    }
}

/// The version and what stands behind the first line, or what is left where the text stops having one.
#[tactic(auto, unfolding(crate::specs::FirstLine::first_line))]
pub fn first_line(text: &[u8]) -> Result<(u32, &[u8]), &[u8]>
    ensures { spec.found_in result ≡ spec.first_line text.now }
{
    from_words(without_blanks(text))
}
