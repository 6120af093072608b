ghost use Rattle.std.specs.Prelude.{◌≡◌};
ghost use Rattle.cc_whole.specs.Types.{same_type};

use cf_base::Items;

/// A type of a value of the small C: of a parameter, a result, a load, a store or a cast.
#[derive(Clone, Copy, Debug, PartialEq, Eq)]
pub enum CType {
    /// `char`, signed, of 1 byte.
    Char,
    /// `unsigned char`, of 1 byte.
    UChar,
    /// `short`, signed, of 2 bytes.
    Short,
    /// `unsigned short`, of 2 bytes.
    UShort,
    /// `int`, signed, of 4 bytes.
    Int,
    /// `unsigned`, of 4 bytes.
    UInt,
    /// `char *`, of 4 bytes.
    Pointer,
    /// `__f`, a pointer to a function, of 4 bytes.
    FunctionPointer,
}

impl CType {
    /// Whether it is this type.
    #[tactic(auto, unfolding(crate::specs::Types::same_type))]
    pub fn is(self, other: CType) -> bool
        ensures { result ≡ same_type self other }
    {
        self == other
    }
}

/// An integer constant. The forms `0` and `-0` are one constant.
#[derive(Clone, Copy, Debug, PartialEq, Eq)]
pub enum CConstant {
    /// Digits, with a `-` before them or not: an int.
    Signed(i32),
    /// Digits with a `u` behind them: an unsigned.
    Unsigned(u32),
}

/// The type of a function, as the call through a pointer names it. No result type is `void`.
#[derive(Debug, Drop)]
pub struct CSignature {
    pub result: Option<CType>,
    pub parameters: Items<CType>,
}

/// The type of a variable of a unit. An array tells the number of its elements.
#[derive(Clone, Copy, Debug, PartialEq, Eq)]
pub enum CVariableType {
    Scalar(CType),
    /// `int NAME[..]`
    Ints(CConstant),
    /// `char NAME[..]`
    Chars(CConstant),
    /// `struct __e NAME[..]`, pairs of an int and a pointer to a function, of 8 bytes each.
    Pairs(CConstant),
}

/// The type of a local of a body.
#[derive(Clone, Copy, Debug, PartialEq, Eq)]
pub enum CLocalType {
    Scalar(CType),
    /// `int NAME[..]`, with the number of its elements.
    Ints(CConstant),
}
