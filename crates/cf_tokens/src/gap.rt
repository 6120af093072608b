ghost use Rattle.std.specs.Prelude.{◌≡◌, ◌≤◌, ◌+◌, length, drop, get_or, true, IfSome};
ghost use Rattle.std.specs.List.{list_all};
ghost use Rattle.std.specs.Option.{option_copied};
ghost use Rattle.cf_tokens.specs.Piece.{IsWithin};
ghost use Rattle.cf_tokens.specs.Class.{has};
ghost use Rattle.cf_tokens.specs.declared.class.Class.TheVariants.{InLine};
ghost use Rattle.cf_tokens.specs.Gap.{line_comment, comment, comment_end, behind_byte, behind_some, behind_line, behind_marker, is_blank_or_digit, is_marker, directive};

use crate::class::Class;
use crate::piece::Piece;
use cf_base::Rule;

/// The bytes behind the first `n`.
pub(crate) fn rest_of(bytes: &[u8], n: usize) -> &[u8]
    requires { n ≤ length bytes.now }
    ensures { result.now ≡ drop n bytes.now }
{
    &bytes[n..]
}

/// The piece that begins with `//` (2.2).
#[tactic(auto, unfolding(crate::specs::Gap::line_comment))]
pub(crate) fn line_comment(text: &[u8]) -> Piece
    requires some { 1 ≤ length text.now }
    requires in_line { has InLine (get_or text.now 0 0) ≡ true }
    ensures piece { result ≡ line_comment text.now }
    ensures within { IsWithin (length text.now) result }
{
    Piece::Gap(Class::InLine.run(text))
}

/// The piece that begins with `/*` (2.2).
#[tactic(auto, unfolding(crate::specs::Gap::comment))]
pub(crate) fn comment(text: &[u8]) -> Piece
    requires { 2 ≤ length text.now }
    ensures piece { result ≡ comment text.now }
    ensures within { IsWithin (length text.now) result }
{
    match comment_end(rest_of(text, 2)) {
        Some(n) => Piece::Gap(n),
        None => Piece::Flaw(Rule::new(2)),
    }
}

/// How many bytes a comment has, given those behind its `/*`.
fn comment_end(bytes: &[u8]) -> Option<usize>
    ensures count { result ≡ comment_end 2 bytes.now }
    ensures within { IfSome result (λ n. (2 ≤ n) × (n ≤ length bytes.now + 2)) }
{
    let mut rest = bytes;
    let mut n = 2usize;
    while let [_, behind @ ..] = rest {
        if rest.starts_with(b"*/") {
            return Some(n + 2);
        }
        rest = behind;
        n += 1;
    }
    None
}

/// The piece that begins with `#` (16.4).
#[tactic(auto, unfolding(crate::specs::Gap::directive))]
pub(crate) fn directive(starts_line: bool, text: &[u8]) -> Piece
    requires some { 1 ≤ length text.now }
    requires in_line { has InLine (get_or text.now 0 0) ≡ true }
    ensures piece { result ≡ directive starts_line text.now }
    ensures within { IsWithin (length text.now) result }
{
    if !starts_line {
        return Piece::Flaw(Rule::new(1));
    }
    let line = Class::InLine.leading(text);
    if is_marker(line) {
        Piece::Gap(line.len())
    } else {
        Piece::Flaw(Rule::new(7))
    }
}

fn is_marker(line: &[u8]) -> bool
    ensures { result ≡ is_marker line.now }
{
    match behind_marker(line) {
        Some(numbers) => are_numbers(numbers),
        None => false,
    }
}

fn are_numbers(bytes: &[u8]) -> bool
    ensures { result ≡ list_all is_blank_or_digit bytes.now }
{
    bytes.iter().all(|byte| is_blank_or_digit(*byte))
}

fn is_blank_or_digit(byte: u8) -> bool
    ensures { result ≡ is_blank_or_digit byte }
{
    Class::Blank.has(byte) || Class::Digit.has(byte)
}

#[tactic(auto, unfolding(crate::specs::Gap::behind_marker))]
fn behind_marker(line: &[u8]) -> Option<&[u8]>
    ensures { option_copied result ≡ behind_marker line.now }
{
    let word = behind_byte(b'#', line)?;
    let number = behind_line(Class::Blank.behind(word))?;
    let gap = behind_some(Class::Digit, number)?;
    let quoted = behind_some(Class::Blank, gap)?;
    let name = behind_byte(b'"', quoted)?;
    behind_byte(b'"', Class::InQuotes.behind(name))
}

fn behind_byte(byte: u8, bytes: &[u8]) -> Option<&[u8]>
    ensures { option_copied result ≡ behind_byte byte bytes.now }
{
    match bytes {
        [first, behind @ ..] if *first == byte => Some(behind),
        _ => None,
    }
}

fn behind_some(class: Class, bytes: &[u8]) -> Option<&[u8]>
    ensures { option_copied result ≡ behind_some class bytes.now }
{
    if class.run(bytes) == 0 {
        None
    } else {
        Some(class.behind(bytes))
    }
}

fn behind_line(bytes: &[u8]) -> Option<&[u8]>
    ensures { option_copied result ≡ behind_line bytes.now }
{
    match bytes.strip_prefix(b"line") {
        Some(behind) => behind_some(Class::Blank, behind),
        None => Some(bytes),
    }
}
