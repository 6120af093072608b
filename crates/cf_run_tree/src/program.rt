use crate::node::Node;
use crate::shape::{ObjectType, Shape};
use cf_base::{Items, Name};

/// The type of a function (8.2.5).
#[derive(Debug, Drop)]
pub struct Signature {
    pub params: Items<Shape>,
    pub result: Shape,
}

/// A function.
#[derive(Drop)]
pub struct RunFn {
    /// Its link name.
    pub name: Name,
    pub signature: Signature,
    /// Of its locals, by their numbers behind the parameters.
    pub locals: Items<ObjectType>,
    pub body: Node,
    pub is_shared: bool,
    pub is_local: bool,
}

/// A static object.
#[derive(Drop)]
pub struct RunStatic {
    /// Its link name.
    pub name: Name,
    pub ty: ObjectType,
    /// Its initialiser; blank where it is zeroed alone.
    pub start: Node,
    /// The function whose local it is, by its link name: the literals of its initialiser are numbered there (2.5.4, 6.7).
    pub owner: Option<Name>,
    pub is_constant: bool,
    pub is_shared: bool,
    pub is_local: bool,
}

/// The program of one file, without classes. Static objects that are not constant are zeroed alone.
#[derive(Drop)]
pub struct Program {
    pub functions: Items<RunFn>,
    pub statics: Items<RunStatic>,
}
