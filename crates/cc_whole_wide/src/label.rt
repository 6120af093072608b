//! The 32 bits that a constant has as a label.

ghost use Rattle.std.specs.Prelude.{◌≡◌, ◌≤◌, ◌+◌, ◌*◌, ◌%◌, ◌^◌, ℕ, pos, neg_ℤ};
ghost use Rattle.std.specs.Char as char_spec;
ghost use Rattle.std.specs.Str.Parse.{digits_value};
ghost use Rattle.cf_base.specs.Integers.{bits_of};
ghost use Rattle.cc_whole.specs.Numbers.{label_of};
ghost use Rattle.cc_whole_fitting.specs.Numbers.{signed_at};

use cc_whole_fitting::Before;

fn digit_value(byte: u8) -> u8
    ensures value { result ≡ char_spec.digit_value byte }
    ensures small { result ≤ 36 }
{
    match byte {
        b'0'..=b'9' => byte - b'0',
        b'A'..=b'Z' => byte - b'A' + 10,
        b'a'..=b'z' => byte - b'a' + 10,
        _ => 36,
    }
}

/// The 32 lowest bits of a number with another digit behind it.
fn with_digit(value: u32, byte: u8) -> u32
    ensures { result ≡ (value * 10 + char_spec.digit_value byte) % 2 ^ 32 }
{
    low(u64::from(value) * 10 + u64::from(digit_value(byte)))
}

/// The 32 lowest bits of the number that decimal digits write.
pub fn low_bits(digits: &[u8]) -> u32
    ensures { result ≡ digits_value 10 digits.now % 2 ^ 32 }
{
    let mut rest = digits;
    let mut value = 0u32;
    while let [byte, behind @ ..] = rest {
        value = with_digit(value, *byte);
        rest = behind;
    }
    value
}

fn low(value: u64) -> u32
    ensures { result ≡ value % 2 ^ 32 }
{
    (value % 0x1_0000_0000) as u32
}

/// The bits of a number with the other sign.
fn negated(bits: u32) -> u32
    ensures { (n : ℕ) → bits ≡ n % 2 ^ 32 → result ≡ bits_of 32 (neg_ℤ (pos n)) }
{
    if bits == 0 {
        0
    } else {
        low(0x1_0000_0000 - u64::from(bits))
    }
}

/// The bits of an int, by its digits and what stands before them.
pub fn signed_bits(digits: &[u8], before: Before) -> u32
    ensures { result ≡ label_of (signed_at before (digits_value 10 digits.now)) }
{
    let bits = low_bits(digits);
    match before {
        Before::Sign => negated(bits),
        Before::Operand | Before::Word | Before::Other => bits,
    }
}
