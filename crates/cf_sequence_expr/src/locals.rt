//! The locals that expressions and statements add to a function: the objects of the parameters of what is called, and temporaries.

ghost use Rattle.std.specs.Prelude.{◌≡◌, ◌<◌, ◌++◌, map, true, length, IfOk, OnOk, []};
ghost use Rattle.std.specs.Option.{option_map};
ghost use Rattle.cf_core.specs.FromUnit.{tables_of};
ghost use Rattle.cf_core.specs.Numbers.{are_known, all_of, maybe_of};
ghost use Rattle.cf_sequence_expr.specs.Pieces.{piece, part_piece, in_all, in_maybe};
ghost use Rattle.cf_sequence_expr.specs.Parameters.{parameters_at, part_known};

use crate::function_types::parameters;
use cf_base::{Boxed, Items, Memory};
use cf_core::{Core, CoreUnit, PartStart};
use cf_types::TyId;
use std::alloc::Global;

/// How many locals a tree adds.
pub fn width(alloc: Global, unit: &CoreUnit, e: &Core) -> Result<usize, Memory>
    requires { are_known (tables_of unit.now) e.now ≡ true }
    ensures { IfOk result (λ count. count ≡ length ((piece unit.now.types e.now).locals [])) }
{
    let mut types = Items::new(alloc);
    add_locals(unit, e, &mut types)?;
    Ok(types.len())
}

/// Adds the types of the objects of a function's parameters.
fn objects(unit: &CoreUnit, ty: TyId, types: &mut Items<TyId>) -> Result<(), Memory>
    requires { ty < length unit.now.types.types }
    ensures { OnOk result (types.new ≡ types.old ++ parameters_at unit.now.types ty) }
{
    for parameter in parameters(unit, ty) {
        types.push(*parameter)?;
    }
    Ok(())
}

/// Adds the types of the locals that a tree adds.
#[cycle(locals)]
pub fn add_locals(unit: &CoreUnit, e: &Core, types: &mut Items<TyId>) -> Result<(), Memory>
    requires { are_known (tables_of unit.now) e.now ≡ true }
    ensures { OnOk result (types.new ≡ (piece unit.now.types e.now).locals types.old) }
{
    match e {
        Core::Number { .. }
        | Core::Text { .. }
        | Core::This { .. }
        | Core::Local { .. }
        | Core::Static { .. }
        | Core::Function { .. }
        | Core::DataPointer { .. }
        | Core::FunctionPointer { .. }
        | Core::Characters { .. }
        | Core::Zeros { .. }
        | Core::Blank { .. }
        | Core::Case { .. }
        | Core::Default { .. }
        | Core::Break { .. }
        | Core::Continue { .. } => Ok(()),
        Core::Member { object: a, .. }
        | Core::Read { place: a, .. }
        | Core::Address { place: a, .. }
        | Core::Dereference { pointer: a, .. }
        | Core::Decay { array: a, .. }
        | Core::Convert { operand: a, .. }
        | Core::Up { operand: a, .. }
        | Core::Down { operand: a, .. }
        | Core::FromVoid { operand: a, .. }
        | Core::ToMember { operand: a, .. }
        | Core::Unary { operand: a, .. }
        | Core::Not { operand: a, .. }
        | Core::Increment { place: a, .. }
        | Core::New { start: a, .. }
        | Core::Delete { pointer: a, .. }
        | Core::DeleteArray { pointer: a, .. }
        | Core::Each { start: a, .. }
        | Core::Bind { operand: a, .. }
        | Core::Full { expression: a, .. }
        | Core::Declare { start: a, .. }
        | Core::Once { start: a, .. } => add_locals(unit, a.get(), types),
        Core::Index {
            left: a,
            right: b,
            ..
        }
        | Core::Through {
            object: a,
            pointer: b,
            ..
        }
        | Core::Operate {
            left: a,
            right: b,
            ..
        }
        | Core::And {
            left: a,
            right: b,
            ..
        }
        | Core::Or {
            left: a,
            right: b,
            ..
        }
        | Core::PointerOperate {
            left: a,
            right: b,
            ..
        }
        | Core::Store {
            place: a,
            value: b,
            ..
        }
        | Core::Update {
            place: a,
            value: b,
            ..
        }
        | Core::NewArray {
            count: a,
            start: b,
            ..
        } => {
            add_locals(unit, a.get(), types)?;
            add_locals(unit, b.get(), types)
        }
        Core::Conditional {
            condition,
            yes,
            no,
            ..
        } => {
            add_locals(unit, condition.get(), types)?;
            add_locals(unit, yes.get(), types)?;
            add_locals(unit, no.get(), types)
        }
        Core::Comma { operands: all, .. }
        | Core::Block {
            statements: all,
            ..
        }
        | Core::Sequence {
            statements: all,
            ..
        } => add_locals_of_all(unit, all.as_slice(), types),
        Core::Assign {
            to,
            from,
            further,
            ..
        } => {
            add_locals(unit, to.get(), types)?;
            add_locals(unit, from.get(), types)?;
            add_locals_of_all(unit, further.as_slice(), types)
        }
        Core::Temporary { ty, start, .. } => {
            types.push(*ty)?;
            add_locals(unit, start.get(), types)
        }
        Core::Call {
            ty,
            object,
            arguments,
            ..
        } => {
            objects(unit, *ty, types)?;
            add_locals_of_maybe(unit, object, types)?;
            add_locals_of_all(unit, arguments.as_slice(), types)
        }
        Core::VirtualCall {
            ty,
            object,
            arguments,
            ..
        } => {
            objects(unit, *ty, types)?;
            add_locals(unit, object.get(), types)?;
            add_locals_of_all(unit, arguments.as_slice(), types)
        }
        Core::PointerCall {
            object,
            pointer,
            ty,
            arguments,
            ..
        } => {
            objects(unit, *ty, types)?;
            add_locals_of_maybe(unit, object, types)?;
            add_locals(unit, pointer.get(), types)?;
            add_locals_of_all(unit, arguments.as_slice(), types)
        }
        Core::Build { ty, arguments, .. } => {
            objects(unit, *ty, types)?;
            add_locals_of_all(unit, arguments.as_slice(), types)
        }
        Core::Copy { from, further, .. } => {
            add_locals(unit, from.get(), types)?;
            add_locals_of_all(unit, further.as_slice(), types)
        }
        Core::List { starts, rest, .. } => {
            add_locals_of_all(unit, starts.as_slice(), types)?;
            add_locals(unit, rest.get(), types)
        }
        Core::If {
            condition,
            yes,
            no,
            ..
        } => {
            add_locals(unit, condition.get(), types)?;
            add_locals(unit, yes.get(), types)?;
            add_locals_of_maybe(unit, no, types)
        }
        Core::Loop {
            condition,
            step,
            body,
            ..
        } => {
            add_locals_of_maybe(unit, condition, types)?;
            add_locals_of_maybe(unit, step, types)?;
            add_locals(unit, body.get(), types)
        }
        Core::Switch { operand, body, .. } => {
            add_locals(unit, operand.get(), types)?;
            add_locals_of_all(unit, body.as_slice(), types)
        }
        Core::Return { value, .. } => add_locals_of_maybe(unit, value, types),
        Core::Parts { parts, body, .. } => {
            add_locals_of_parts(unit, parts.as_slice(), types)?;
            add_locals(unit, body.get(), types)
        }
    }
}

#[cycle(locals)]
fn add_locals_of_all(unit: &CoreUnit, all: &[Core], types: &mut Items<TyId>) -> Result<(), Memory>
    requires { all_of (tables_of unit.now) (map (are_known (tables_of unit.now)) all.now) ≡ true }
    ensures { OnOk result (types.new ≡ in_all (map (piece unit.now.types) all.now) types.old) }
{
    for e in all {
        add_locals(unit, e, types)?;
    }
    Ok(())
}

#[cycle(locals)]
fn add_locals_of_maybe(
    unit: &CoreUnit,
    e: &Option<Boxed<Core>>,
    types: &mut Items<TyId>,
) -> Result<(), Memory>
    requires { maybe_of (tables_of unit.now) (option_map (are_known (tables_of unit.now)) e.now) ≡ true }
    ensures { OnOk result (types.new ≡ in_maybe (option_map (piece unit.now.types) e.now) types.old) }
{
    match e {
        Some(e) => add_locals(unit, e.get(), types),
        None => Ok(()),
    }
}

/// Those of the initialisers of bases and data members.
#[cycle(locals)]
fn add_locals_of_parts(
    unit: &CoreUnit,
    parts: &[PartStart],
    types: &mut Items<TyId>,
) -> Result<(), Memory>
    requires { all_of (tables_of unit.now) (map (part_known (tables_of unit.now)) parts.now) ≡ true }
    ensures { OnOk result (types.new ≡ in_all (map (part_piece unit.now.types) parts.now) types.old) }
{
    for part in parts {
        add_locals(unit, &part.start, types)?;
    }
    Ok(())
}
