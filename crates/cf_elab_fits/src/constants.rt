//! Constants (2.5).

ghost use Rattle.std.specs.Prelude.{◌≡◌, pos};
ghost use Rattle.cf_base.specs.Integers as integers;

use cf_base::Kind;

/// Whether the value of an integer constant is one of its type (2.5.1).
pub fn integer_fits(value: u32, kind: Kind) -> bool
    ensures { result ≡ integers.fits kind (pos value) }
{
    match kind {
        Kind::Char | Kind::SChar => value < 128,
        Kind::UChar => value < 256,
        Kind::Short => value < 32768,
        Kind::UShort => value < 65536,
        Kind::Int | Kind::Long => value < 2147483648,
        Kind::UInt | Kind::ULong => true,
    }
}

/// Whether the value of a character constant is a `char` (2.5.2).
pub fn character_fits(_value: i8) -> bool
    ensures { result ≡ integers.fits Kind.Char _value }
{
    true
}
