use cf_base::Kind;
use cf_types::{FunId, TyId};

/// What operators ask of a type (5); const doesn't matter.
#[derive(Clone, Copy, Debug, PartialEq, Eq)]
pub enum Sort {
    Integral(Kind),
    /// The enumeration of this number.
    Enumeral(u32),
    /// A pointer to an object of this type.
    ObjectPointer(TyId),
    VoidPointer,
    /// A pointer to a function of this type.
    FunctionPointer(TyId),
    /// So many elements of this type.
    Array(TyId, u32),
    Function(FunId),
    Void,
    /// A reference to this type.
    Reference(TyId),
}
