ghost use Rattle.std.specs.Prelude.{◌≡◌, ℕ, ◌<◌, ◌≤◌, ◌^◌};
ghost use Rattle.cf_base.specs.Integers as integers;
ghost use Rattle.cf_base.specs.Promotion as promotion;

use cf_base::Kind;

/// The type that a value of this type has as an operand (4.1).
pub fn promote(kind: Kind) -> Kind
    ensures { result ≡ promotion.promoted kind }
{
    match kind {
        Kind::UInt | Kind::Long | Kind::ULong => kind,
        _ => Kind::Int,
    }
}

/// The type that two operands of these types are converted to (4.5).
pub fn usual(a: Kind, b: Kind) -> Kind
    ensures { result ≡ promotion.usual a b }
{
    match (promote(a), promote(b)) {
        (Kind::ULong, _) | (_, Kind::ULong) => Kind::ULong,
        (Kind::Long, Kind::UInt) | (Kind::UInt, Kind::Long) => Kind::ULong,
        (Kind::Long, _) | (_, Kind::Long) => Kind::Long,
        (Kind::UInt, _) | (_, Kind::UInt) => Kind::UInt,
        _ => Kind::Int,
    }
}

/// The value of the type that is equal to this one modulo 2 to the number of its bits (4.3).
pub fn convert_int(value: i64, to: Kind) -> i64
    ensures { result ≡ integers.convert to value }
{
    value_of(low_bits(value, to), to)
}

/// Whether the type has negative values (3.6.1).
pub(crate) fn is_signed(kind: Kind) -> bool
    ensures { result ≡ integers.is_signed kind }
{
    match kind {
        Kind::Char | Kind::SChar | Kind::Short | Kind::Int | Kind::Long => true,
        Kind::UChar | Kind::UShort | Kind::UInt | Kind::ULong => false,
    }
}

/// How many bits a value of the type has (3.6.1).
pub(crate) fn width(kind: Kind) -> u32
    ensures { result ≡ integers.width kind }
{
    match kind {
        Kind::Char | Kind::SChar | Kind::UChar => 8,
        Kind::Short | Kind::UShort => 16,
        Kind::Int | Kind::UInt | Kind::Long | Kind::ULong => 32,
    }
}

/// How many values the type has.
pub(crate) fn modulus(kind: Kind) -> u64
    ensures value { result ≡ 2 ^ integers.width kind }
    ensures small { result ≤ 2 ^ 32 }
    ensures some { 0 < result }
{
    1 << width(kind)
}

/// The bits of a value in two's complement, as many as the type has.
pub(crate) fn low_bits(value: i64, kind: Kind) -> u64
    ensures { result ≡ integers.bits_of (integers.width kind) value }
{
    value.rem_euclid(modulus(kind) as i64) as u64
}

/// The value of the type that has these bits.
pub(crate) fn value_of(bits: u64, kind: Kind) -> i64
    requires { bits < 2 ^ integers.width kind }
    ensures { result ≡ integers.value_of_bits (integers.is_signed kind) (integers.width kind) bits }
{
    let modulus = modulus(kind);
    if is_signed(kind) && bits >= modulus / 2 {
        bits as i64 - modulus as i64
    } else {
        bits as i64
    }
}
