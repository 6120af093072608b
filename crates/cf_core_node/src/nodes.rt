//! Nodes with all that is in them (5, 6, 8.4).

ghost use Rattle.std.specs.Prelude.{◌≡◌, true};
ghost use Rattle.cf_core_node.specs.Gives.{Gives};
ghost use Rattle.cf_core_node.specs.Known.{known};
ghost use Rattle.cf_core_node.specs.Nodes.{node_of};

use crate::defined::Defined;
use crate::fault::NotLoaded;
use crate::leaves::{
    boxed, change_of, characters, function, function_type, named_function, static_object, text,
};
use crate::names::linked;
use crate::parts::{
    all, and, applied, bound, branch, called, conditional, converted, declaration, joined, list,
    maybe, or, pointer_called, switch, temporary, turning,
};
use cf_base::Boxed;
use cf_core::{Core, CoreUnit};
use cf_run_tree::{Binary, Node, Unary};
use std::alloc::Global;

/// The tree that a node is, or the place of its first construct that has none. The file defines this.
#[cycle(nodes)]
pub fn node(
    alloc: Global,
    unit: &CoreUnit,
    defined: &Defined,
    e: &Core,
) -> Result<Boxed<Node>, NotLoaded>
    requires { known unit.now e.now ≡ true }
    ensures { Gives (node_of unit.now.types defined.now e.now) result }
{
    match e {
        Core::Number { value, .. } => boxed(alloc, Node::Number(*value)),
        Core::Text { number, bytes, .. } => text(alloc, *number, bytes),
        Core::This { at } => Err(NotLoaded::NotBuilt { at: *at }),
        Core::Local { number, .. } => boxed(alloc, Node::Local(*number)),
        Core::Static { at, name, ty } => static_object(alloc, unit, defined, *at, name, *ty),
        Core::Function { at, name, ty } => function(alloc, unit, defined, *at, name, *ty),
        Core::Member { at, .. } => Err(NotLoaded::NotBuilt { at: *at }),
        Core::Read { place, .. } => applied(alloc, unit, defined, Unary::Read, place),
        Core::Address { place, .. } => applied(alloc, unit, defined, Unary::Address, place),
        Core::Dereference { pointer, .. } => {
            applied(alloc, unit, defined, Unary::Dereference, pointer)
        }
        Core::Decay { array, .. } => applied(alloc, unit, defined, Unary::Decay, array),
        Core::Index { left, right, .. } => {
            let left = node(alloc, unit, defined, left.get())?;
            joined(alloc, unit, defined, Binary::Index, right, left)
        }
        Core::Convert { at, ty, operand } => converted(alloc, unit, defined, *at, *ty, operand),
        Core::Up { at, .. } => Err(NotLoaded::NotBuilt { at: *at }),
        Core::Down { at, .. } => Err(NotLoaded::NotBuilt { at: *at }),
        Core::FromVoid { at, .. } => Err(NotLoaded::NotBuilt { at: *at }),
        Core::ToMember { at, .. } => Err(NotLoaded::NotBuilt { at: *at }),
        Core::DataPointer { at, .. } => Err(NotLoaded::NotBuilt { at: *at }),
        Core::FunctionPointer { at, .. } => Err(NotLoaded::NotBuilt { at: *at }),
        Core::Through { at, .. } => Err(NotLoaded::NotBuilt { at: *at }),
        Core::Operate {
            op,
            kind,
            left,
            right,
            ..
        } => {
            let left = node(alloc, unit, defined, left.get())?;
            joined(
                alloc,
                unit,
                defined,
                Binary::Operate(*op, *kind),
                right,
                left,
            )
        }
        Core::Unary {
            op,
            kind,
            operand,
            ..
        } => { applied(alloc, unit, defined, Unary::Sign(*op, *kind), operand) }
        Core::Not { operand, .. } => applied(alloc, unit, defined, Unary::Not, operand),
        Core::And { left, right, .. } => {
            let left = node(alloc, unit, defined, left.get())?;
            and(alloc, unit, defined, right, left)
        }
        Core::Or { left, right, .. } => {
            let left = node(alloc, unit, defined, left.get())?;
            or(alloc, unit, defined, right, left)
        }
        Core::PointerOperate {
            op,
            left,
            right,
            ..
        } => {
            let left = node(alloc, unit, defined, left.get())?;
            joined(alloc, unit, defined, Binary::Point(*op), right, left)
        }
        Core::Conditional {
            condition,
            yes,
            no,
            ..
        } => {
            let condition = node(alloc, unit, defined, condition.get())?;
            let yes = node(alloc, unit, defined, yes.get())?;
            conditional(alloc, unit, defined, no, condition, yes)
        }
        Core::Comma { operands, .. } => {
            let operands = all(alloc, unit, defined, operands)?;
            boxed(alloc, Node::Comma(operands))
        }
        Core::Store { place, value, .. } => {
            let place = node(alloc, unit, defined, place.get())?;
            joined(alloc, unit, defined, Binary::Store, value, place)
        }
        Core::Update {
            place,
            change,
            value,
            ..
        } => {
            let place = node(alloc, unit, defined, place.get())?;
            joined(
                alloc,
                unit,
                defined,
                Binary::Update(change_of(*change)),
                value,
                place,
            )
        }
        Core::Increment {
            is_postfix,
            change,
            place,
            ..
        } => {
            applied(
                alloc,
                unit,
                defined,
                Unary::Increment(*is_postfix, change_of(*change)),
                place,
            )
        }
        Core::Assign { at, .. } => Err(NotLoaded::NotBuilt { at: *at }),
        Core::Temporary { at, ty, start } => temporary(alloc, unit, defined, *at, *ty, start),
        Core::Call {
            at,
            object: Some(_),
            ..
        } => Err(NotLoaded::NotBuilt { at: *at }),
        Core::Call {
            at,
            function,
            ty,
            object: None,
            arguments,
        } => {
            let name = linked(alloc, defined.own.as_slice(), function.as_slice())?;
            let signature = named_function(alloc, unit, defined, *at, name.as_slice(), *ty)?;
            called(alloc, unit, defined, arguments, name, signature)
        }
        Core::VirtualCall { at, .. } => Err(NotLoaded::NotBuilt { at: *at }),
        Core::PointerCall {
            at,
            object: Some(_),
            ..
        } => Err(NotLoaded::NotBuilt { at: *at }),
        Core::PointerCall {
            at,
            object: None,
            pointer,
            ty,
            arguments,
        } => {
            let signature = function_type(alloc, unit, *at, *ty)?;
            let pointer = node(alloc, unit, defined, pointer.get())?;
            pointer_called(alloc, unit, defined, arguments, pointer, signature)
        }
        Core::New { at, .. } => Err(NotLoaded::NotBuilt { at: *at }),
        Core::NewArray { at, .. } => Err(NotLoaded::NotBuilt { at: *at }),
        Core::Delete { at, .. } => Err(NotLoaded::NotBuilt { at: *at }),
        Core::DeleteArray { at, .. } => Err(NotLoaded::NotBuilt { at: *at }),
        Core::Build { at, .. } => Err(NotLoaded::NotBuilt { at: *at }),
        Core::Copy { at, .. } => Err(NotLoaded::NotBuilt { at: *at }),
        Core::Each { at, .. } => Err(NotLoaded::NotBuilt { at: *at }),
        Core::List { starts, rest, .. } => {
            let starts = all(alloc, unit, defined, starts)?;
            list(alloc, unit, defined, rest, starts)
        }
        Core::Characters { bytes, .. } => characters(alloc, bytes),
        Core::Bind {
            at,
            holder,
            operand,
        } => bound(alloc, unit, defined, operand, *at, holder),
        Core::Zeros { .. } => boxed(alloc, Node::Zeros),
        Core::Blank { .. } => boxed(alloc, Node::Blank),
        Core::Full { expression, .. } => {
            let expression = node(alloc, unit, defined, expression.get())?;
            boxed(alloc, Node::Full(expression))
        }
        Core::Block { statements, .. } => {
            let statements = all(alloc, unit, defined, statements)?;
            boxed(alloc, Node::Block(statements))
        }
        Core::Sequence { statements, .. } => {
            let statements = all(alloc, unit, defined, statements)?;
            boxed(alloc, Node::Sequence(statements))
        }
        Core::Declare {
            at,
            local,
            ty,
            start,
        } => { declaration(alloc, unit, defined, *at, *local, *ty, start) }
        Core::Once { at, .. } => Err(NotLoaded::NotBuilt { at: *at }),
        Core::If {
            condition,
            yes,
            no,
            ..
        } => {
            let condition = node(alloc, unit, defined, condition.get())?;
            let yes = node(alloc, unit, defined, yes.get())?;
            branch(alloc, unit, defined, no, condition, yes)
        }
        Core::Loop {
            form,
            condition,
            step,
            body,
            ..
        } => {
            let condition = maybe(alloc, unit, defined, condition)?;
            let step = maybe(alloc, unit, defined, step)?;
            turning(alloc, unit, defined, body, *form, condition, step)
        }
        Core::Switch { operand, body, .. } => {
            let operand = node(alloc, unit, defined, operand.get())?;
            switch(alloc, unit, defined, body, operand)
        }
        Core::Case { value, .. } => boxed(alloc, Node::Case(*value)),
        Core::Default { .. } => boxed(alloc, Node::Default),
        Core::Break { .. } => boxed(alloc, Node::Break),
        Core::Continue { .. } => boxed(alloc, Node::Continue),
        Core::Return { value, .. } => {
            let value = maybe(alloc, unit, defined, value)?;
            boxed(alloc, Node::Return(value))
        }
        Core::Parts { at, .. } => Err(NotLoaded::NotBuilt { at: *at }),
    }
}
