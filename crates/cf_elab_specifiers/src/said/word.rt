use cf_syntax::{BasicType, Storage};
use cf_types::TyId;

/// A specifier whose names are looked up, with its byte place (7.1).
#[derive(Clone, Copy, Debug, PartialEq, Eq)]
pub enum Word {
    Stored(u32, Storage),
    Const(u32),
    Basic(u32, BasicType),
    /// A type that is named.
    Type(u32, TyId),
    /// A class or enumeration that is defined here.
    Defined(u32, TyId),
}
