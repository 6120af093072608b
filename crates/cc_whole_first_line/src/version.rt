//! The version that digits write.

ghost use Rattle.std.specs.Prelude.{◌≡◌, ◌&&◌, ◌==◌, not};
ghost use Rattle.std.specs.Char as char_spec;
ghost use Rattle.std.specs.Char.{is_ascii_digit};
ghost use Rattle.std.specs.Str.Parse.{digits_value};
ghost use Rattle.cc_whole_tokens.specs.Token.{begins};
ghost use Rattle.cc_whole_first_line.specs.FirstLine as spec;

/// One more than the greatest version.
const VERSIONS: u64 = 1_000_000_000;

fn digit_value(byte: u8) -> u8
    ensures value { result ≡ char_spec.digit_value byte }
{
    match byte {
        b'0'..=b'9' => byte - b'0',
        b'A'..=b'Z' => byte - b'A' + 10,
        b'a'..=b'z' => byte - b'a' + 10,
        _ => 36,
    }
}

fn limited(value: u64) -> Option<u32>
    ensures { result ≡ spec.as_version value }
{
    if value < VERSIONS {
        Some(value as u32)
    } else {
        None
    }
}

/// The value of digits, where it is below the limit of versions.
fn value_of(digits: &[u8]) -> Option<u32>
    ensures { result ≡ spec.as_version (digits_value 10 digits.now) }
{
    let mut rest = digits;
    let mut value = 0u64;
    while let [byte, behind @ ..] = rest {
        if value >= VERSIONS {
            return None;
        }
        value = value * 10 + u64::from(digit_value(*byte));
        rest = behind;
    }
    limited(value)
}

/// Whether digits stand here, with no 0 at their front.
fn is_numeral(digits: &[u8]) -> bool
    ensures { result ≡ (begins is_ascii_digit digits.now && not (begins (λ b. b == 48) digits.now)) }
{
    match digits {
        [] => false,
        [byte, ..] => byte.is_ascii_digit() && *byte != b'0',
    }
}

/// The version that digits write: a number from 1 on of at most nine digits.
pub fn version_of(digits: &[u8]) -> Option<u32>
    ensures { result ≡ spec.version_of digits.now }
{
    if is_numeral(digits) {
        value_of(digits)
    } else {
        None
    }
}
