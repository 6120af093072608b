ghost use Rattle.std.specs.Prelude.{◌≡◌};
ghost use Rattle.cf_classes.specs.LinkName as link;

use cf_base::Kind;

/// The letters of an integer type.
pub(crate) fn kind_code(kind: Kind) -> &'static [u8]
    ensures { result.now ≡ link.kind_code kind }
{
    match kind {
        Kind::Char => b"c",
        Kind::SChar => b"Sc",
        Kind::UChar => b"Uc",
        Kind::Short => b"s",
        Kind::UShort => b"Us",
        Kind::Int => b"i",
        Kind::UInt => b"Ui",
        Kind::Long => b"l",
        Kind::ULong => b"Ul",
    }
}
