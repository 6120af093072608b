//! The integer types that a number is a value of.

ghost use Rattle.std.specs.Prelude.{◌≡◌, ◌&&◌, true};
ghost use Rattle.cf_base.specs.Integers as integers;
ghost use Rattle.cf_base.specs.declared.kind.Kind.{Kind as KindOf};
ghost use Rattle.cf_lower.specs.Kept as definition;
ghost use Rattle.cf_lowerable_types.specs.Kinds.{both_kinds, has_kind, no_kind};

use cf_base::Kind;

/// The integer types that a number is a value of.
#[derive(Clone, Copy, Debug, PartialEq, Eq)]
pub struct Kinds {
    pub plain_char: bool,
    pub signed_char: bool,
    pub unsigned_char: bool,
    pub short: bool,
    pub unsigned_short: bool,
    pub int: bool,
    pub unsigned_int: bool,
    pub long: bool,
    pub unsigned_long: bool,
}

impl Kinds {
    /// Whether a type is one of them.
    pub fn has(&self, kind: Kind) -> bool
        ensures { result ≡ has_kind self.now kind }
    {
        match kind {
            Kind::Char => self.plain_char,
            Kind::SChar => self.signed_char,
            Kind::UChar => self.unsigned_char,
            Kind::Short => self.short,
            Kind::UShort => self.unsigned_short,
            Kind::Int => self.int,
            Kind::UInt => self.unsigned_int,
            Kind::Long => self.long,
            Kind::ULong => self.unsigned_long,
        }
    }
}

/// The same answer for all.
fn each(answer: bool) -> Kinds
    ensures { (k : KindOf) → has_kind result k ≡ answer }
{
    Kinds {
        plain_char: answer,
        signed_char: answer,
        unsigned_char: answer,
        short: answer,
        unsigned_short: answer,
        int: answer,
        unsigned_int: answer,
        long: answer,
        unsigned_long: answer,
    }
}

/// All types: of 0 and 1.
#[tactic(auto, using(crate::proofs::KindSets::same_kinds))]
pub fn all_kinds() -> Kinds
    ensures { has_kind result ≡ (λ k. true) }
{
    each(true)
}

/// No type.
#[tactic(auto, using(crate::proofs::KindSets::same_kinds))]
pub fn no_kinds() -> Kinds
    ensures { has_kind result ≡ no_kind }
{
    each(false)
}

/// Whether both are so.
fn both(a: bool, b: bool) -> bool
    ensures { result ≡ (a && b) }
{
    a && b
}

/// The types that both have.
#[tactic(auto, using(crate::proofs::KindSets::for_each))]
pub fn meet_kinds(a: &Kinds, b: &Kinds) -> Kinds
    ensures { has_kind result ≡ both_kinds (has_kind a.now) (has_kind b.now) }
{
    let plain_char = both(a.plain_char, b.plain_char);
    let signed_char = both(a.signed_char, b.signed_char);
    let unsigned_char = both(a.unsigned_char, b.unsigned_char);
    let short = both(a.short, b.short);
    let unsigned_short = both(a.unsigned_short, b.unsigned_short);
    let int = both(a.int, b.int);
    let unsigned_int = both(a.unsigned_int, b.unsigned_int);
    let long = both(a.long, b.long);
    let unsigned_long = both(a.unsigned_long, b.unsigned_long);
    Kinds {
        plain_char,
        signed_char,
        unsigned_char,
        short,
        unsigned_short,
        int,
        unsigned_int,
        long,
        unsigned_long,
    }
}

/// Whether it has negative values (3.6.1).
fn is_signed(kind: Kind) -> bool
    ensures { result ≡ integers.is_signed kind }
{
    match kind {
        Kind::Char | Kind::SChar | Kind::Short | Kind::Int | Kind::Long => true,
        Kind::UChar | Kind::UShort | Kind::UInt | Kind::ULong => false,
    }
}

/// How many bits its values have (3.6.1).
fn width(kind: Kind) -> u32
    ensures { result ≡ integers.width kind }
{
    match kind {
        Kind::Char | Kind::SChar | Kind::UChar => 8,
        Kind::Short | Kind::UShort => 16,
        Kind::Int | Kind::UInt | Kind::Long | Kind::ULong => 32,
    }
}

/// Whether each value of the first type is one of the second.
fn is_within(kind: Kind, to: Kind) -> bool
    ensures { result ≡ definition.within kind to }
{
    if is_signed(kind) {
        is_signed(to) && width(kind) <= width(to)
    } else if is_signed(to) {
        width(kind) < width(to)
    } else {
        width(kind) <= width(to)
    }
}

/// The types of each value of this type.
#[tactic(auto, using(crate::proofs::KindSets::for_each))]
pub fn kinds_within(kind: Kind) -> Kinds
    ensures { has_kind result ≡ definition.within kind }
{
    let plain_char = is_within(kind, Kind::Char);
    let signed_char = is_within(kind, Kind::SChar);
    let unsigned_char = is_within(kind, Kind::UChar);
    let short = is_within(kind, Kind::Short);
    let unsigned_short = is_within(kind, Kind::UShort);
    let int = is_within(kind, Kind::Int);
    let unsigned_int = is_within(kind, Kind::UInt);
    let long = is_within(kind, Kind::Long);
    let unsigned_long = is_within(kind, Kind::ULong);
    Kinds {
        plain_char,
        signed_char,
        unsigned_char,
        short,
        unsigned_short,
        int,
        unsigned_int,
        long,
        unsigned_long,
    }
}

/// Whether it is a value of the type (3.6.1).
pub fn fits(kind: Kind, number: i64) -> bool
    ensures { result ≡ integers.fits kind number }
{
    match kind {
        Kind::Char | Kind::SChar => -128 <= number && number < 128,
        Kind::UChar => 0 <= number && number < 256,
        Kind::Short => -32768 <= number && number < 32768,
        Kind::UShort => 0 <= number && number < 65536,
        Kind::Int | Kind::Long => -2147483648 <= number && number < 2147483648,
        Kind::UInt | Kind::ULong => 0 <= number && number < 4294967296,
    }
}

/// The types of a number.
#[tactic(auto, using(crate::proofs::KindSets::for_each))]
pub fn kinds_fitting(number: i64) -> Kinds
    ensures { has_kind result ≡ (λ k. integers.fits k number) }
{
    let plain_char = fits(Kind::Char, number);
    let signed_char = fits(Kind::SChar, number);
    let unsigned_char = fits(Kind::UChar, number);
    let short = fits(Kind::Short, number);
    let unsigned_short = fits(Kind::UShort, number);
    let int = fits(Kind::Int, number);
    let unsigned_int = fits(Kind::UInt, number);
    let long = fits(Kind::Long, number);
    let unsigned_long = fits(Kind::ULong, number);
    Kinds {
        plain_char,
        signed_char,
        unsigned_char,
        short,
        unsigned_short,
        int,
        unsigned_int,
        long,
        unsigned_long,
    }
}
