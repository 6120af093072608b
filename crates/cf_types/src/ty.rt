use crate::ids::{ClassId, FunId, TyId};
use cf_base::{Items, Kind};

/// A type (3.6). A reference, an array and the like name the type that they are made of by its number.
#[derive(Clone, Copy, Debug, PartialEq, Eq, Hash)]
pub enum Ty {
    Void,
    Int(Kind),
    /// The enumeration of this number.
    Enum(u32),
    Class(ClassId),
    Ptr(TyId),
    Ref(TyId),
    /// So many elements of this type.
    Array(TyId, u32),
    Fun(FunId),
    /// A pointer to a data member of this type, of this class or a class derived from it.
    MemData(ClassId, TyId),
    /// A pointer to a member function.
    MemFun(ClassId, FunId),
    Const(TyId),
}

/// The type of a function (8.2.5).
#[derive(Debug, PartialEq, Eq, Hash, Drop)]
pub struct Fun {
    pub result: TyId,
    pub params: Items<TyId>,
    /// Of a member function: whether `this` points to a const object (9.3.1).
    pub is_const: bool,
}
