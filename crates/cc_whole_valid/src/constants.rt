ghost use Rattle.std.specs.Prelude.{◌≡◌};
ghost use Rattle.cf_base.specs.declared.kind.Kind.TheVariants.{Int, UInt};
ghost use Rattle.cf_base.specs.Integers.{fits, bits_of};
ghost use Rattle.std.specs.Prelude.{pos};
ghost use Rattle.cc_whole.specs.Numbers as spec;

use cc_whole::{CConstant, CType};

/// One more than the greatest number of elements of an array.
const ELEMENTS: u32 = 4_194_305;

/// The type of a constant.
pub fn constant_type(c: CConstant) -> CType
    ensures { result ≡ spec.constant_type c }
{
    match c {
        CConstant::Signed(_) => CType::Int,
        CConstant::Unsigned(_) => CType::UInt,
    }
}

/// Whether it is an int, which its type says.
fn is_int(number: i32) -> bool
    ensures { result ≡ fits Int number }
{
    let _ = number;
    true
}

/// Whether it is an unsigned, which its type says.
fn is_unsigned(number: u32) -> bool
    ensures { result ≡ fits UInt (pos number) }
{
    let _ = number;
    true
}

/// Whether a constant fits 32 bits.
pub fn fits_constant(c: CConstant) -> bool
    ensures { result ≡ spec.fits_constant c }
{
    match c {
        CConstant::Signed(number) => is_int(number),
        CConstant::Unsigned(number) => is_unsigned(number),
    }
}

fn is_zero_int(number: i32) -> bool
    ensures { result ≡ spec.is_zero_value number }
{
    number == 0
}

fn is_zero_unsigned(number: u32) -> bool
    ensures { result ≡ spec.is_zero_value (pos number) }
{
    number == 0
}

/// Whether a constant is 0.
pub fn is_zero_constant(c: CConstant) -> bool
    ensures { result ≡ spec.is_zero_value (spec.value_of c) }
{
    match c {
        CConstant::Signed(number) => is_zero_int(number),
        CConstant::Unsigned(number) => is_zero_unsigned(number),
    }
}

fn low_bits(number: i32) -> u32
    ensures { result ≡ bits_of 32 number }
{
    if number >= 0 {
        number as u32
    } else {
        u32::MAX - (-1 - number) as u32
    }
}

fn itself(number: u32) -> u32
    ensures { result ≡ bits_of 32 (pos number) }
{
    number
}

/// The label of a `switch` that a constant is, modulo 2^32.
pub fn label_of(c: CConstant) -> u32
    ensures { result ≡ spec.label_of c }
{
    match c {
        CConstant::Signed(number) => low_bits(number),
        CConstant::Unsigned(number) => itself(number),
    }
}

fn count_in(number: i32) -> u32
    ensures { result ≡ spec.count_in number }
{
    if number >= 0 { number as u32 } else { 0 }
}

/// The number of elements of an array.
pub fn size_of(c: CConstant) -> u32
    ensures { result ≡ spec.size_of c }
{
    match c {
        CConstant::Signed(number) => count_in(number),
        CConstant::Unsigned(number) => number,
    }
}

/// Whether an array may have so many elements.
pub fn is_size(c: CConstant) -> bool
    ensures { result ≡ spec.is_size c }
{
    0 < size_of(c) && size_of(c) < ELEMENTS
}
