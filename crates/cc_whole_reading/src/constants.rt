//! The values of constants.

ghost use Rattle.std.specs.Prelude.{◌≡◌, ◌≤◌, pos, neg_ℤ, Some};
ghost use Rattle.std.specs.Char as char_spec;
ghost use Rattle.std.specs.Str.Parse.{digits_value};
ghost use Rattle.cc_whole.specs.declared.types.CConstant.TheVariants as int;
ghost use Rattle.cc_whole_reading.specs.Constants as spec;
ghost use Rattle.cc_whole_reading.specs.Magnitude.{up_to_most};

use cc_whole::CConstant;

/// Which constants are read.
#[derive(Clone, Copy, Debug, PartialEq, Eq)]
pub enum Constants {
    /// Those that fit 32 bits; another stops the reading.
    Exact,
    /// All, with 0 in place of each that does not fit.
    Any,
}

fn digit_value(byte: u8) -> u8
    ensures value { result ≡ char_spec.digit_value byte }
    ensures small { result ≤ 36 }
{
    match byte {
        b'0'..=b'9' => byte - b'0',
        b'A'..=b'Z' => byte - b'A' + 10,
        b'a'..=b'z' => byte - b'a' + 10,
        _ => 36,
    }
}

/// The value of decimal digits, where it fits 32 bits.
pub fn magnitude(digits: &[u8]) -> Option<u32>
    ensures { result ≡ up_to_most (digits_value 10 digits.now) }
{
    let mut rest = digits;
    let mut value = 0u64;
    while let [byte, behind @ ..] = rest {
        if value > 0xffff_ffff {
            return None;
        }
        value = value * 10 + u64::from(digit_value(*byte));
        rest = behind;
    }
    limited(value)
}

fn limited(value: u64) -> Option<u32>
    ensures { result ≡ up_to_most value }
{
    if value <= 0xffff_ffff {
        Some(value as u32)
    } else {
        None
    }
}

/// The int that digits write.
fn positive_int(digits: &[u8]) -> Option<CConstant>
    ensures { result ≡ spec.fitting (int.Signed (pos (digits_value 10 digits.now))) }
{
    match magnitude(digits) {
        Some(value) if value < 0x8000_0000 => Some(CConstant::Signed(value as i32)),
        _ => None,
    }
}

fn negated(value: u32) -> i32
    requires { value ≤ 2147483648 }
    ensures { result ≡ neg_ℤ (pos value) }
{
    (0 - i64::from(value)) as i32
}

/// The int that digits write with a `-` before them.
fn negative_int(digits: &[u8]) -> Option<CConstant>
    ensures { result ≡ spec.fitting (int.Signed (neg_ℤ (pos (digits_value 10 digits.now)))) }
{
    match magnitude(digits) {
        Some(value) if value <= 0x8000_0000 => Some(CConstant::Signed(negated(value))),
        _ => None,
    }
}

/// The unsigned that digits write.
fn unsigned_int(digits: &[u8]) -> Option<CConstant>
    ensures { result ≡ spec.fitting (int.Unsigned (digits_value 10 digits.now)) }
{
    match magnitude(digits) {
        Some(value) => Some(CConstant::Unsigned(value)),
        None => None,
    }
}

fn or_zero(constants: Constants, found: Option<CConstant>, zero: CConstant) -> Option<CConstant>
    ensures { result ≡ spec.or_zero constants found zero }
{
    match (constants, found) {
        (Constants::Any, None) => Some(zero),
        _ => found,
    }
}

/// The constant of digits without a `-`.
pub fn positive(constants: Constants, digits: &[u8]) -> Option<CConstant>
    ensures { result ≡ spec.keeps constants (int.Signed (pos (digits_value 10 digits.now))) }
{
    or_zero(constants, positive_int(digits), CConstant::Signed(0))
}

/// The constant of digits behind a `-`.
pub fn negative(constants: Constants, digits: &[u8]) -> Option<CConstant>
    ensures { result ≡ spec.keeps constants (int.Signed (neg_ℤ (pos (digits_value 10 digits.now)))) }
{
    or_zero(constants, negative_int(digits), CConstant::Signed(0))
}

/// The constant of digits with a `u`.
pub fn unsigned(constants: Constants, digits: &[u8]) -> Option<CConstant>
    ensures { result ≡ spec.keeps constants (int.Unsigned (digits_value 10 digits.now)) }
{
    or_zero(constants, unsigned_int(digits), CConstant::Unsigned(0))
}
