//! Types of objects and functions.

use cf_base::{Items, Kind, Memory};
use cf_run_tree::{Bounds, Form, ObjectType, Shape, Signature};
use cf_types::TyId;
use std::alloc::Global;

pub const INT: Shape = Shape {
    is_const: false,
    form: Form::Integer(Kind::Int),
};

/// A type that is not const.
pub fn open(form: Form) -> Shape {
    Shape {
        is_const: false,
        form,
    }
}

/// `int*`
pub fn pointer() -> Shape {
    open(Form::Pointer(TyId::new(0)))
}

/// `int(*)(int,int)`
pub fn function_pointer() -> Shape {
    open(Form::Pointer(TyId::new(2)))
}

/// `int&`
pub fn reference() -> Shape {
    open(Form::Reference(TyId::new(0)))
}

/// `const int&`
pub fn const_reference() -> Shape {
    open(Form::Reference(TyId::new(1)))
}

/// An object of this type that is no array.
pub fn scalar(shape: Shape) -> ObjectType {
    ObjectType {
        shape,
        bounds: Bounds::None,
    }
}

/// An array of so many ints.
pub fn ints(bound: u32) -> ObjectType {
    ObjectType {
        shape: INT,
        bounds: Bounds::One(bound),
    }
}

/// The type of a function with these parameters that gives an int.
pub fn signature(alloc: Global, params: &[Shape]) -> Result<Signature, Memory> {
    Ok(Signature {
        params: Items::from_slice(alloc, params)?,
        result: INT,
    })
}
