ghost use Rattle.std.specs.Prelude.{◌≡◌, ◌≤◌, length, get_or, true, pos, find};
ghost use Rattle.cf_base.specs.Integers.{fits};
ghost use Rattle.cf_tokens.specs.Piece.{IsWithin};
ghost use Rattle.cf_tokens.specs.Class.{has};
ghost use Rattle.cf_tokens.specs.declared.class.Class.TheVariants.{NameByte};
ghost use Rattle.cf_tokens.specs.Constant.{base_of, radix_of, digits_of, body_of, suffix_of, kinds, typed, constant_of, constant};

use crate::class::Class;
use crate::number::number_within;
use crate::piece::Piece;
use crate::token::Word;
use cf_base::{Kind, Rule};

/// The base of a constant (2.5.1).
#[derive(Clone, Copy)]
pub(crate) enum Base {
    Octal,
    Decimal,
    Hexadecimal,
}

/// The letters behind a constant (2.5.1).
#[derive(Clone, Copy)]
pub(crate) enum Suffix {
    Plain,
    Unsigned,
    Long,
    UnsignedLong,
}

/// The piece that begins with a digit (2.5.1).
#[tactic(auto, unfolding(crate::specs::Constant::constant))]
pub(crate) fn constant(text: &[u8]) -> Piece
    requires some { 1 ≤ length text.now }
    requires in_name { has NameByte (get_or text.now 0 0) ≡ true }
    ensures piece { result ≡ constant text.now }
    ensures within { IsWithin (length text.now) result }
{
    let spelling = Class::NameByte.leading(text);
    match constant_of(spelling) {
        Some((value, kind)) => Piece::Whole(Word::Int { value, kind }, spelling.len()),
        None => Piece::Flaw(Rule::new(5)),
    }
}

fn constant_of(spelling: &[u8]) -> Option<(u32, Kind)>
    ensures { result ≡ constant_of spelling.now }
{
    let base = base_of(spelling);
    let body = body_of(base, spelling);
    let digit = digits_of(base);
    typed(base, digit.leading(body), digit.behind(body))
}

#[tactic(auto, unfolding(crate::specs::Constant::typed))]
fn typed(base: Base, digits: &[u8], letters: &[u8]) -> Option<(u32, Kind)>
    ensures { result ≡ typed base digits.now letters.now }
{
    let value = number_within(u32::MAX, radix_of(base), digits)?;
    let suffix = suffix_of(letters)?;
    let kind = first_that_holds(kinds(base, suffix), value)?;
    Some((value, kind))
}

fn base_of(spelling: &[u8]) -> Base
    ensures { result ≡ base_of spelling.now }
{
    if spelling.starts_with(b"0x") || spelling.starts_with(b"0X") {
        Base::Hexadecimal
    } else if spelling.starts_with(b"0") {
        Base::Octal
    } else {
        Base::Decimal
    }
}

fn radix_of(base: Base) -> u32
    ensures value { result ≡ radix_of base }
    ensures some { 1 ≤ result }
    ensures few { result ≤ 16 }
{
    match base {
        Base::Octal => 8,
        Base::Decimal => 10,
        Base::Hexadecimal => 16,
    }
}

fn digits_of(base: Base) -> Class
    ensures { result ≡ digits_of base }
{
    match base {
        Base::Octal => Class::OctalDigit,
        Base::Decimal => Class::Digit,
        Base::Hexadecimal => Class::HexDigit,
    }
}

/// The digits and the suffix.
fn body_of(base: Base, spelling: &[u8]) -> &[u8]
    ensures { result.now ≡ body_of base spelling.now }
{
    match (base, spelling) {
        (Base::Hexadecimal, [_, _, behind @ ..]) => behind,
        (Base::Hexadecimal, _) => &[],
        (Base::Octal | Base::Decimal, _) => spelling,
    }
}

fn suffix_of(letters: &[u8]) -> Option<Suffix>
    ensures { result ≡ suffix_of letters.now }
{
    match letters {
        [] => Some(Suffix::Plain),
        [b'u' | b'U'] => Some(Suffix::Unsigned),
        [b'l' | b'L'] => Some(Suffix::Long),
        [b'u' | b'U', b'l' | b'L'] | [b'l' | b'L', b'u' | b'U'] => Some(Suffix::UnsignedLong),
        _ => None,
    }
}

/// The types of which the first that holds the value is the constant's.
fn kinds(base: Base, suffix: Suffix) -> &'static [Kind]
    ensures { result.now ≡ kinds base suffix }
{
    match (suffix, base) {
        (Suffix::Plain, Base::Decimal) => &[Kind::Int, Kind::Long, Kind::ULong],
        (Suffix::Plain, _) => &[Kind::Int, Kind::UInt, Kind::Long, Kind::ULong],
        (Suffix::Unsigned, _) => &[Kind::UInt, Kind::ULong],
        (Suffix::Long, _) => &[Kind::Long, Kind::ULong],
        (Suffix::UnsignedLong, _) => &[Kind::ULong],
    }
}

fn first_that_holds(kinds: &[Kind], value: u32) -> Option<Kind>
    ensures { result ≡ find (λ kind. fits kind (pos value)) kinds.now }
{
    kinds.iter().copied().find(|kind| holds(*kind, value))
}

/// Whether the value is one of the type's.
fn holds(kind: Kind, value: u32) -> bool
    ensures { result ≡ fits kind (pos value) }
{
    match kind {
        Kind::Char | Kind::SChar => value < 1 << 7,
        Kind::UChar => value < 1 << 8,
        Kind::Short => value < 1 << 15,
        Kind::UShort => value < 1 << 16,
        Kind::Int | Kind::Long => value < 1 << 31,
        Kind::UInt | Kind::ULong => true,
    }
}
