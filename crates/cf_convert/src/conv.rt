use cf_base::{Items, Kind};
use cf_classes::Path;
use cf_types::TyId;

/// A value that is to be converted.
#[derive(Clone, Copy, Debug, PartialEq, Eq)]
pub struct Val {
    pub ty: TyId,
    /// Whether it is an object or a function, and not a result (3.7).
    pub lvalue: bool,
    /// Whether it is an integer constant of value 0 (4.6).
    pub zero: bool,
}

/// One step of a conversion (4).
#[derive(Debug, Drop)]
pub enum ConvStep {
    /// The value of an lvalue (4.1).
    Read,
    /// An array or a function as a pointer (4.6).
    Decay,
    /// Const is added under a pointer or a reference.
    AddConst,
    /// Integral promotion (4.1).
    Promote,
    /// Any other conversion to this integer type (4.3).
    Integer(Kind),
    /// The constant 0 as a null pointer (4.6).
    Null,
    /// An object pointer to `void*` (4.6).
    ToVoid,
    /// A derived class to its base at this path, also under a pointer or a reference (4.6, 4.7).
    ToBase(Path),
    /// A pointer to a member of the base at this path to one of the derived class (4.8).
    ToMember(Path),
}

/// A conversion: its rank, from 1, which is the best, and its steps (13.2).
#[derive(Debug, Drop)]
pub struct Conv {
    pub rank: u8,
    pub steps: Items<ConvStep>,
}
