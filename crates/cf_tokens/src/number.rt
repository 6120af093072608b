ghost use Rattle.std.specs.Prelude.{◌≡◌, ◌<◌, ◌≤◌, IfSome};
ghost use Rattle.cf_tokens.specs.Number.{digit_value, number_within};

/// The value of a digit in any base, and 0 of another byte.
fn digit_value(byte: u8) -> u8
    ensures value { result ≡ digit_value byte }
    ensures small { result < 16 }
{
    match byte {
        b'0'..=b'9' => byte - b'0',
        b'A'..=b'F' => byte - b'A' + 10,
        b'a'..=b'f' => byte - b'a' + 10,
        _ => 0,
    }
}

/// The number that digits are, where there are digits and it is not over `most` (2.5.1, 2.5.2).
#[tactic(auto, unfolding(crate::specs::Number::number_within))]
pub(crate) fn number_within(most: u32, radix: u32, digits: &[u8]) -> Option<u32>
    requires some { 1 ≤ radix }
    requires few { radix ≤ 16 }
    ensures number { result ≡ number_within most radix digits.now }
    ensures within { IfSome result (λ number. number ≤ most) }
{
    if digits.is_empty() {
        return None;
    }
    let mut value = 0u64;
    for digit in digits {
        value = value * u64::from(radix) + u64::from(digit_value(*digit));
        if value > u64::from(most) {
            return None;
        }
    }
    Some(value as u32)
}
