ghost use Rattle.std.specs.Prelude.{◌≡◌, true, Ok, slice_get};
ghost use Rattle.cf_classes.specs.TypeTree.{fun_of};
ghost use Rattle.cf_core_shape.specs.Shapes as shapes;
ghost use Rattle.cf_core_node.specs.Defined as heads;
ghost use Rattle.cf_core_node.specs.Formed.{placed, made};
ghost use Rattle.cf_core_node.specs.Gives.{Gives};
ghost use Rattle.cf_core_node.specs.Known.{type_known};
ghost use Rattle.cf_core_node.specs.Nodes as spec;

use crate::defined::{Defined, FunctionHead, function_named, has_type, same_head, static_named};
use crate::fault::NotLoaded;
use crate::names::linked;
use cf_base::{Boxed, Bytes, Name};
use cf_core::{Change as CoreChange, CoreUnit};
use cf_core_shape::{object_type_of, shape_of, signature_of};
use cf_run_tree::{Change, Node, ObjectType, Operation, Shape, Signature};
use cf_types::{Ty, TyId};
use std::alloc::Global;

/// A tree on the heap.
pub(crate) fn boxed(alloc: Global, node: Node) -> Result<Boxed<Node>, NotLoaded>
    ensures { Gives (Ok node) result }
{
    Ok(Boxed::new(alloc, node)?)
}

/// The shape that a construct at this place needs.
pub(crate) fn shape(unit: &CoreUnit, at: u32, ty: TyId) -> Result<Shape, NotLoaded>
    requires { type_known unit.now ty ≡ true }
    ensures { Gives (placed at (shapes.shape_of unit.now.types.types ty)) result }
{
    match shape_of(unit, ty) {
        Some(shape) => Ok(shape),
        None => Err(NotLoaded::NotBuilt { at }),
    }
}

/// The type of objects that a construct at this place needs.
pub fn object(unit: &CoreUnit, at: u32, ty: TyId) -> Result<ObjectType, NotLoaded>
    requires { type_known unit.now ty ≡ true }
    ensures { Gives (placed at (shapes.object_type_of unit.now.types ty)) result }
{
    match object_type_of(unit, ty) {
        Some(found) => Ok(found),
        None => Err(NotLoaded::NotBuilt { at }),
    }
}

/// The type of functions that a construct at this place needs.
pub fn function_type(
    alloc: Global,
    unit: &CoreUnit,
    at: u32,
    ty: TyId,
) -> Result<Signature, NotLoaded>
    requires { type_known unit.now ty ≡ true }
    ensures { Gives (placed at (shapes.signature_of unit.now.types ty)) result }
{
    match signature_of(alloc, unit, ty)? {
        Some(found) => Ok(found),
        None => Err(NotLoaded::NotBuilt { at }),
    }
}

/// A string literal by its number in its function (2.5.4).
pub(crate) fn text(alloc: Global, number: u32, bytes: &Bytes) -> Result<Boxed<Node>, NotLoaded>
    ensures { Gives (Ok (Node.Text number bytes.now)) result }
{
    let bytes = Bytes::from_slice(alloc, bytes.as_slice())?;
    Ok(Boxed::new(alloc, Node::Text(number, bytes))?)
}

/// The initialiser of a char array (8.4.2).
pub(crate) fn characters(alloc: Global, bytes: &Bytes) -> Result<Boxed<Node>, NotLoaded>
    ensures { Gives (Ok (Node.Characters bytes.now)) result }
{
    let bytes = Bytes::from_slice(alloc, bytes.as_slice())?;
    Ok(Boxed::new(alloc, Node::Characters(bytes))?)
}

/// Whether a function of this link name and type has the very type of its definition, where the file has one.
fn agrees(unit: &CoreUnit, defined: &Defined, name: &[u8], ty: TyId) -> bool
    requires { type_known unit.now ty ≡ true }
    ensures { result ≡ heads.agrees (heads.function_defined defined.now name.now) (fun_of unit.now.types (slice_get unit.now.types.types ty)) }
{
    match function_named(defined.functions.as_slice(), name) {
        None => true,
        Some(head) => has_head(unit, head, ty),
    }
}

/// Whether a function is defined with the type of this number.
fn has_head(unit: &CoreUnit, head: &FunctionHead, ty: TyId) -> bool
    requires { type_known unit.now ty ≡ true }
    ensures { result ≡ heads.has_head head.now (fun_of unit.now.types (slice_get unit.now.types.types ty)) }
{
    match unit.ty(ty) {
        Ty::Fun(number) => same_head(head, unit.fun(*number)),
        _ => false,
    }
}

/// The type of a function of this link name that a construct at this place names.
pub(crate) fn named_function(
    alloc: Global,
    unit: &CoreUnit,
    defined: &Defined,
    at: u32,
    name: &[u8],
    ty: TyId,
) -> Result<Signature, NotLoaded>
    requires { type_known unit.now ty ≡ true }
    ensures { Gives (spec.named_function unit.now.types defined.now at name.now ty) result }
{
    if agrees(unit, defined, name, ty) {
        function_type(alloc, unit, at, ty)
    } else {
        Err(NotLoaded::NotBuilt { at })
    }
}

/// Whether a static object of this link name and type has the very type of its definition, where the file has one.
fn agrees_object(defined: &Defined, name: &[u8], ty: TyId) -> bool
    ensures { result ≡ heads.agrees_object (heads.static_defined defined.now name.now) ty }
{
    match static_named(defined.statics.as_slice(), name) {
        None => true,
        Some(x) => has_type(x, ty),
    }
}

/// The type of a static object of this link name that a construct at this place names.
fn named_object(
    unit: &CoreUnit,
    defined: &Defined,
    at: u32,
    name: &[u8],
    ty: TyId,
) -> Result<ObjectType, NotLoaded>
    requires { type_known unit.now ty ≡ true }
    ensures { Gives (spec.named_object unit.now.types defined.now at name.now ty) result }
{
    if agrees_object(defined, name, ty) {
        object(unit, at, ty)
    } else {
        Err(NotLoaded::NotBuilt { at })
    }
}

/// A static object at this place.
pub(crate) fn static_object(
    alloc: Global,
    unit: &CoreUnit,
    defined: &Defined,
    at: u32,
    name: &Name,
    ty: TyId,
) -> Result<Boxed<Node>, NotLoaded>
    requires { type_known unit.now ty ≡ true }
    ensures { Gives (made (λ s. Node.Static (spec.link unit.now.types defined.now name.now) s) (spec.named_object unit.now.types defined.now at (spec.link unit.now.types defined.now name.now) ty)) result }
{
    let name = linked(alloc, defined.own.as_slice(), name.as_slice())?;
    let ty = named_object(unit, defined, at, name.as_slice(), ty)?;
    Ok(Boxed::new(alloc, Node::Static(name, ty))?)
}

/// A function at this place.
pub(crate) fn function(
    alloc: Global,
    unit: &CoreUnit,
    defined: &Defined,
    at: u32,
    name: &Name,
    ty: TyId,
) -> Result<Boxed<Node>, NotLoaded>
    requires { type_known unit.now ty ≡ true }
    ensures { Gives (made (λ s. Node.Function (spec.link unit.now.types defined.now name.now) s) (spec.named_function unit.now.types defined.now at (spec.link unit.now.types defined.now name.now) ty)) result }
{
    let name = linked(alloc, defined.own.as_slice(), name.as_slice())?;
    let signature = named_function(alloc, unit, defined, at, name.as_slice(), ty)?;
    Ok(Boxed::new(alloc, Node::Function(name, signature))?)
}

/// How a scalar is changed in place.
pub(crate) fn change_of(change: CoreChange) -> Change
    ensures { result ≡ spec.change_of change }
{
    match change {
        CoreChange::Arithmetic { op, at, to } => Change::Arithmetic(Operation { op, at, to }),
        CoreChange::Moved { back } => Change::Moved(back),
    }
}
