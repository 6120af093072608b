ghost use Rattle.std.specs.Prelude.{◌≡◌};
ghost use Rattle.cf_lower.specs.Written as written;
ghost use Rattle.cf_lower_names.specs.Cells.{sort_for};

use cc_whole::CType;
use cf_base::Kind;

/// A scalar as a register holds it.
#[derive(Clone, Copy, Debug, PartialEq, Eq)]
pub enum Cell {
    /// A number of this kind.
    Number(Kind),
    /// The address of a place.
    Address,
    /// A pointer to a function.
    Code,
}

/// The C's integer type of the same width and sign (3.6.1).
pub fn c_integer(kind: Kind) -> CType
    ensures { result ≡ written.c_integer kind }
{
    match kind {
        Kind::Char | Kind::SChar => CType::Char,
        Kind::UChar => CType::UChar,
        Kind::Short => CType::Short,
        Kind::UShort => CType::UShort,
        Kind::Int | Kind::Long => CType::Int,
        Kind::UInt | Kind::ULong => CType::UInt,
    }
}

impl Cell {
    /// The C type of such a scalar in memory.
    pub fn c_type(self) -> CType
        ensures { result ≡ written.c_type (sort_for self) }
    {
        match self {
            Cell::Number(kind) => c_integer(kind),
            Cell::Address => CType::Pointer,
            Cell::Code => CType::FunctionPointer,
        }
    }

    /// The C type of the register that holds it.
    pub fn register_type(self) -> CType
        ensures { result ≡ written.register_type (sort_for self) }
    {
        match self {
            Cell::Number(_) => CType::Int,
            Cell::Address => CType::Pointer,
            Cell::Code => CType::FunctionPointer,
        }
    }
}
