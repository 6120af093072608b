//! What holds other nodes, put together of them (5, 6, 8.4).

ghost use Rattle.std.specs.Prelude.{◌≡◌, ◌&&◌, true, map};
ghost use Rattle.std.specs.Option.{option_map};
ghost use Rattle.cf_core.specs.FromUnit.{tables_of};
ghost use Rattle.cf_core.specs.Numbers.{has_holder};
ghost use Rattle.cf_core_node.specs.Formed.{made, all as in_order, maybe as if_there};
ghost use Rattle.cf_core_node.specs.Gives.{Gives};
ghost use Rattle.cf_core_node.specs.Known.{type_known, known, all_known, maybe_known};
ghost use Rattle.cf_core_node.specs.Nodes as spec;
ghost use Rattle.cf_core_node.specs.Nodes.{node_of};

use crate::defined::Defined;
use crate::fault::NotLoaded;
use crate::leaves::{boxed, object, shape};
use crate::nodes::node;
use cf_base::{Boxed, Items, Name};
use cf_core::{Core, CoreUnit, Holder, LoopForm};
use cf_run_tree::{Binary, Node, Signature, Unary};
use cf_types::TyId;
use std::alloc::Global;

/// What an operator makes of one operand.
#[cycle(nodes)]
pub(crate) fn applied(
    alloc: Global,
    unit: &CoreUnit,
    defined: &Defined,
    op: Unary,
    e: &Boxed<Core>,
) -> Result<Boxed<Node>, NotLoaded>
    requires { known unit.now e.now ≡ true }
    ensures { Gives (spec.applied op (node_of unit.now.types defined.now e.now)) result }
{
    let e = node(alloc, unit, defined, e.get())?;
    boxed(alloc, Node::Apply(op, e))
}

/// What an operator makes of two operands, the left one given.
#[cycle(nodes)]
pub(crate) fn joined(
    alloc: Global,
    unit: &CoreUnit,
    defined: &Defined,
    op: Binary,
    right: &Boxed<Core>,
    left: Boxed<Node>,
) -> Result<Boxed<Node>, NotLoaded>
    requires { known unit.now right.now ≡ true }
    ensures { Gives (made (λ b. Node.Join op left b) (node_of unit.now.types defined.now right.now)) result }
{
    let right = node(alloc, unit, defined, right.get())?;
    boxed(alloc, Node::Join(op, left, right))
}

/// `&&` with its left operand (5.14).
#[cycle(nodes)]
pub(crate) fn and(
    alloc: Global,
    unit: &CoreUnit,
    defined: &Defined,
    right: &Boxed<Core>,
    left: Boxed<Node>,
) -> Result<Boxed<Node>, NotLoaded>
    requires { known unit.now right.now ≡ true }
    ensures { Gives (made (λ b. Node.And left b) (node_of unit.now.types defined.now right.now)) result }
{
    let right = node(alloc, unit, defined, right.get())?;
    boxed(alloc, Node::And(left, right))
}

/// `||` with its left operand (5.15).
#[cycle(nodes)]
pub(crate) fn or(
    alloc: Global,
    unit: &CoreUnit,
    defined: &Defined,
    right: &Boxed<Core>,
    left: Boxed<Node>,
) -> Result<Boxed<Node>, NotLoaded>
    requires { known unit.now right.now ≡ true }
    ensures { Gives (made (λ b. Node.Or left b) (node_of unit.now.types defined.now right.now)) result }
{
    let right = node(alloc, unit, defined, right.get())?;
    boxed(alloc, Node::Or(left, right))
}

/// `?:` with its first two operands (5.16).
#[cycle(nodes)]
pub(crate) fn conditional(
    alloc: Global,
    unit: &CoreUnit,
    defined: &Defined,
    no: &Boxed<Core>,
    condition: Boxed<Node>,
    yes: Boxed<Node>,
) -> Result<Boxed<Node>, NotLoaded>
    requires { known unit.now no.now ≡ true }
    ensures { Gives (made (λ b. Node.Conditional condition yes b) (node_of unit.now.types defined.now no.now)) result }
{
    let no = node(alloc, unit, defined, no.get())?;
    boxed(alloc, Node::Conditional(condition, yes, no))
}

/// A conversion to a type, at this place (4).
#[cycle(nodes)]
pub(crate) fn converted(
    alloc: Global,
    unit: &CoreUnit,
    defined: &Defined,
    at: u32,
    ty: TyId,
    e: &Boxed<Core>,
) -> Result<Boxed<Node>, NotLoaded>
    requires { (type_known unit.now ty && known unit.now e.now) ≡ true }
    ensures { Gives (spec.converted unit.now.types at ty (node_of unit.now.types defined.now e.now)) result }
{
    let shape = shape(unit, at, ty)?;
    let e = node(alloc, unit, defined, e.get())?;
    boxed(alloc, Node::Apply(Unary::Convert(shape), e))
}

/// A temporary of a type, at this place (12.2).
#[cycle(nodes)]
pub(crate) fn temporary(
    alloc: Global,
    unit: &CoreUnit,
    defined: &Defined,
    at: u32,
    ty: TyId,
    start: &Boxed<Core>,
) -> Result<Boxed<Node>, NotLoaded>
    requires { (type_known unit.now ty && known unit.now start.now) ≡ true }
    ensures { Gives (spec.temporary unit.now.types at ty (node_of unit.now.types defined.now start.now)) result }
{
    let shape = shape(unit, at, ty)?;
    let start = node(alloc, unit, defined, start.get())?;
    boxed(alloc, Node::Temporary(shape, start))
}

/// A call of a function of this type (5.2.2).
#[cycle(nodes)]
pub(crate) fn called(
    alloc: Global,
    unit: &CoreUnit,
    defined: &Defined,
    arguments: &Items<Core>,
    name: Name,
    signature: Signature,
) -> Result<Boxed<Node>, NotLoaded>
    requires { all_known unit.now arguments.now ≡ true }
    ensures { Gives (made (λ es. Node.Call name signature es) (in_order (map (node_of unit.now.types defined.now) arguments.now))) result }
{
    let arguments = all(alloc, unit, defined, arguments)?;
    boxed(alloc, Node::Call(name, signature, arguments))
}

/// A call through a pointer to functions of this type (5.2.2).
#[cycle(nodes)]
pub(crate) fn pointer_called(
    alloc: Global,
    unit: &CoreUnit,
    defined: &Defined,
    arguments: &Items<Core>,
    pointer: Boxed<Node>,
    signature: Signature,
) -> Result<Boxed<Node>, NotLoaded>
    requires { all_known unit.now arguments.now ≡ true }
    ensures { Gives (made (λ es. Node.PointerCall pointer signature es) (in_order (map (node_of unit.now.types defined.now) arguments.now))) result }
{
    let arguments = all(alloc, unit, defined, arguments)?;
    boxed(alloc, Node::PointerCall(pointer, signature, arguments))
}

/// Initialisers in order, and each one more (8.4.1).
#[cycle(nodes)]
pub(crate) fn list(
    alloc: Global,
    unit: &CoreUnit,
    defined: &Defined,
    rest: &Boxed<Core>,
    starts: Items<Node>,
) -> Result<Boxed<Node>, NotLoaded>
    requires { known unit.now rest.now ≡ true }
    ensures { Gives (made (λ rest. Node.List starts rest) (node_of unit.now.types defined.now rest.now)) result }
{
    let rest = node(alloc, unit, defined, rest.get())?;
    boxed(alloc, Node::List(starts, rest))
}

/// What a reference binds, at this place (8.4.3).
#[cycle(nodes)]
pub(crate) fn bound(
    alloc: Global,
    unit: &CoreUnit,
    defined: &Defined,
    operand: &Boxed<Core>,
    at: u32,
    holder: &Holder,
) -> Result<Boxed<Node>, NotLoaded>
    requires { (has_holder (tables_of unit.now) holder.now && known unit.now operand.now) ≡ true }
    ensures { Gives (spec.bound unit.now.types at holder.now (node_of unit.now.types defined.now operand.now)) result }
{
    match holder {
        Holder::NoTemporary => {
            let operand = node(alloc, unit, defined, operand.get())?;
            boxed(alloc, Node::Bind(operand))
        }
        Holder::LocalTemporary { local, ty } => {
            let shape = shape(unit, at, *ty)?;
            let operand = node(alloc, unit, defined, operand.get())?;
            boxed(alloc, Node::Hold(*local, shape, operand))
        }
        Holder::StaticTemporary(_) => Err(NotLoaded::NotBuilt { at }),
    }
}

/// A local of a type, at this place (6.7).
#[cycle(nodes)]
pub(crate) fn declaration(
    alloc: Global,
    unit: &CoreUnit,
    defined: &Defined,
    at: u32,
    local: u32,
    ty: TyId,
    start: &Boxed<Core>,
) -> Result<Boxed<Node>, NotLoaded>
    requires { (type_known unit.now ty && known unit.now start.now) ≡ true }
    ensures { Gives (spec.declaration unit.now.types at local ty (node_of unit.now.types defined.now start.now)) result }
{
    let ty = object(unit, at, ty)?;
    let start = node(alloc, unit, defined, start.get())?;
    boxed(alloc, Node::Declare(local, ty, start))
}

/// `if` with its condition and its first statement (6.4.1).
#[cycle(nodes)]
pub(crate) fn branch(
    alloc: Global,
    unit: &CoreUnit,
    defined: &Defined,
    no: &Option<Boxed<Core>>,
    condition: Boxed<Node>,
    yes: Boxed<Node>,
) -> Result<Boxed<Node>, NotLoaded>
    requires { maybe_known unit.now no.now ≡ true }
    ensures { Gives (made (λ b. Node.If condition yes b) (if_there (option_map (node_of unit.now.types defined.now) no.now))) result }
{
    let no = maybe(alloc, unit, defined, no)?;
    boxed(alloc, Node::If(condition, yes, no))
}

/// A loop with its condition and its step (6.5).
#[cycle(nodes)]
pub(crate) fn turning(
    alloc: Global,
    unit: &CoreUnit,
    defined: &Defined,
    body: &Boxed<Core>,
    form: LoopForm,
    condition: Option<Boxed<Node>>,
    step: Option<Boxed<Node>>,
) -> Result<Boxed<Node>, NotLoaded>
    requires { known unit.now body.now ≡ true }
    ensures { Gives (made (λ s. Node.Loop form condition step s) (node_of unit.now.types defined.now body.now)) result }
{
    let body = node(alloc, unit, defined, body.get())?;
    boxed(alloc, Node::Loop(form, condition, step, body))
}

/// `switch` with its operand (6.4.2).
#[cycle(nodes)]
pub(crate) fn switch(
    alloc: Global,
    unit: &CoreUnit,
    defined: &Defined,
    body: &Items<Core>,
    operand: Boxed<Node>,
) -> Result<Boxed<Node>, NotLoaded>
    requires { all_known unit.now body.now ≡ true }
    ensures { Gives (made (λ es. Node.Switch operand es) (in_order (map (node_of unit.now.types defined.now) body.now))) result }
{
    let body = all(alloc, unit, defined, body)?;
    boxed(alloc, Node::Switch(operand, body))
}

/// Nodes, one behind the other.
#[cycle(nodes)]
pub(crate) fn all(
    alloc: Global,
    unit: &CoreUnit,
    defined: &Defined,
    nodes: &Items<Core>,
) -> Result<Items<Node>, NotLoaded>
    requires { all_known unit.now nodes.now ≡ true }
    ensures { Gives (in_order (map (node_of unit.now.types defined.now) nodes.now)) result }
{
    let mut found = Items::new(alloc);
    for e in nodes.as_slice() {
        found.push(node(alloc, unit, defined, e)?.into_inner())?;
    }
    Ok(found)
}

/// A node that may be absent.
#[cycle(nodes)]
pub(crate) fn maybe(
    alloc: Global,
    unit: &CoreUnit,
    defined: &Defined,
    e: &Option<Boxed<Core>>,
) -> Result<Option<Boxed<Node>>, NotLoaded>
    requires { maybe_known unit.now e.now ≡ true }
    ensures { Gives (if_there (option_map (node_of unit.now.types defined.now) e.now)) result }
{
    match e {
        None => Ok(None),
        Some(e) => {
            let e = node(alloc, unit, defined, e.get())?;
            Ok(Some(e))
        }
    }
}
