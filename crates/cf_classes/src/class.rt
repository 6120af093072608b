use cf_base::{Items, Name};
use cf_types::{ClassId, TyId};

/// Who may use a name (11.1).
#[derive(Clone, Copy, Debug, PartialEq, Eq)]
pub enum Access {
    Public,
    Protected,
    Private,
}

/// A direct base class (10).
#[derive(Clone, Copy, Debug, PartialEq, Eq)]
pub struct BaseDef {
    pub class: ClassId,
    pub is_virtual: bool,
    pub access: Access,
}

/// What a member is (9.2).
#[derive(Clone, Copy, Debug, PartialEq, Eq)]
pub enum What {
    /// A data member.
    Field,
    Function,
    Constructor,
    Destructor,
    /// A conversion function (12.3.2).
    Convert,
    /// A class that is declared here.
    Nested(ClassId),
    /// A constant of an enumeration that is declared here, with its value.
    Enumerator(i64),
    /// A name of a type that `typedef` gives, or that of an enumeration that is declared here.
    Alias,
}

/// A member of a class (9.2).
#[derive(Debug, Drop)]
pub struct MemberDef {
    /// As in its link name: `__ct` and `__dt` of a constructor and a destructor, `__pl` and the like of an operator,
    /// `__op` and the type's code of a conversion.
    pub name: Name,
    pub what: What,
    /// Of a function a function type.
    pub ty: TyId,
    pub access: Access,
    pub is_static: bool,
    /// Whether `virtual` stands at it.
    pub is_virtual: bool,
    pub is_pure: bool,
    /// Whether a function's body stands in the class.
    pub is_inline: bool,
    /// How many of a function's last parameters have a default argument.
    pub defaults: u32,
    /// The place of its name in the file, in bytes.
    pub at: u32,
}

/// A member, by its place in its class. The number after the last is that of the generated destructor, where one is needed.
#[derive(Clone, Copy, Debug, PartialEq, Eq)]
pub struct MemberRef {
    pub class: ClassId,
    pub index: u32,
}

/// A friend of a class (11.4).
#[derive(Debug, Drop)]
pub enum Friend {
    Class(ClassId),
    /// A function that is no member, by its name and type.
    Function(Name, TyId),
    Member(MemberRef),
}

/// The definition of a class (9, 10).
#[derive(Debug, Drop)]
pub struct ClassDef {
    /// Whether it is declared by `struct`.
    pub is_struct: bool,
    pub bases: Items<BaseDef>,
    pub members: Items<MemberDef>,
    pub friends: Items<Friend>,
}
