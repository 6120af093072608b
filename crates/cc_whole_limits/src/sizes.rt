ghost use Rattle.std.specs.Prelude.{◌≡◌, ◌<◌, ◌^◌};
ghost use Rattle.cc_whole.specs.Numbers as numbers;
ghost use Rattle.cc_whole.specs.Types.{local_type};
ghost use Rattle.cc_whole_link.specs.Static as spec;

use cc_whole::{CConstant, CLocalType, CType};

/// How many elements an array of this size has.
fn count_of(constant: CConstant) -> u32
    ensures { result ≡ numbers.size_of constant }
{
    match constant {
        CConstant::Signed(number) => u32::try_from(number).unwrap_or(0),
        CConstant::Unsigned(number) => number,
    }
}

fn type_bytes(ty: CType) -> u64
    ensures bytes { result ≡ spec.type_bytes ty }
    ensures small { result < 2 ^ 36 }
{
    match ty {
        CType::Char | CType::UChar => 1,
        CType::Short | CType::UShort => 2,
        CType::Int | CType::UInt | CType::Pointer | CType::FunctionPointer => 4,
    }
}

fn local_size(ty: CLocalType) -> u64
    ensures bytes { result ≡ spec.variable_bytes (local_type ty) }
    ensures small { result < 2 ^ 36 }
{
    match ty {
        CLocalType::Scalar(ty) => type_bytes(ty),
        CLocalType::Ints(count) => 4 * u64::from(count_of(count)),
    }
}

/// So many bytes, rounded up to 8.
fn rounded(bytes: u64) -> u64
    requires { bytes < 2 ^ 36 }
    ensures { result ≡ spec.rounded bytes }
{
    8 * ((bytes + 7) / 8)
}

/// What a parameter of this type takes of a frame.
pub fn parameter_bytes(ty: CType) -> u64
    ensures { result ≡ spec.rounded (spec.type_bytes ty) }
{
    rounded(type_bytes(ty))
}

/// What a local of this type takes of a frame.
pub fn local_bytes(ty: CLocalType) -> u64
    ensures { result ≡ spec.rounded (spec.variable_bytes (local_type ty)) }
{
    rounded(local_size(ty))
}
