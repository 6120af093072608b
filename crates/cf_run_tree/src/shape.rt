use cf_base::Kind;
use cf_types::TyId;

/// What a type is, const aside.
#[derive(Clone, Copy, Debug, PartialEq, Eq)]
pub enum Form {
    Void,
    Integer(Kind),
    /// The enumeration of this number.
    Enumeration(u32),
    /// A pointer to this type.
    Pointer(TyId),
    /// A reference to this type.
    Reference(TyId),
}

/// A type that is `void` or a scalar (3.6.1).
#[derive(Clone, Copy, Debug, PartialEq, Eq)]
pub struct Shape {
    pub is_const: bool,
    pub form: Form,
}

/// The numbers of elements of an object, the outermost first (8.2.4). Arrays of arrays of arrays have no form.
#[derive(Clone, Copy, Debug, PartialEq, Eq)]
pub enum Bounds {
    /// It is no array.
    None,
    One(u32),
    Two(u32, u32),
}

/// The type of an object: a scalar or, with bounds, an array of scalars.
#[derive(Clone, Copy, Debug, PartialEq, Eq)]
pub struct ObjectType {
    pub shape: Shape,
    pub bounds: Bounds,
}
