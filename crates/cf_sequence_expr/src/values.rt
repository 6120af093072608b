ghost use Rattle.std.specs.Prelude.{◌≡◌, ◌+◌, ◌<◌, map, length, true, IfOk, OnOk};
ghost use Rattle.cf_core.specs.FromUnit.{tables_of};
ghost use Rattle.cf_core.specs.Numbers.{are_known, all_of};
ghost use Rattle.cf_sequence_expr.specs.Parameters.{parameters_at};
ghost use Rattle.cf_sequence_expr.specs.Pieces.{piece};
ghost use Rattle.cf_sequence_expr.specs.Pieces as spec;

use crate::changes::{stepped, stepped_behind, updated};
use crate::function_types::{numbers, parameters, type_at};
use crate::holders::{held, static_held};
use crate::locals::width;
use crate::writing::{Full, Writing, behind, beyond, copied};
use cf_base::{Memory, Name};
use cf_core::{Core, CoreUnit, Holder};
use cf_plain::Action;
use cf_types::TyId;

/// Writes the value of an expression into a register. What is not built yet writes nothing.
#[cycle(values)]
pub fn value(unit: &CoreUnit, e: &Core, full: Full, n: u32, w: &mut Writing) -> Result<(), Memory>
    requires { are_known (tables_of unit.now) e.now ≡ true }
    ensures { OnOk result (w.new ≡ (piece unit.now.types e.now).value full n w.old) }
{
    match e {
        Core::Number { value, .. } => w.set(n, Action::Number { value: *value }),
        Core::Text { number, bytes, .. } => {
            let bytes = copied(w.alloc, bytes)?;
            w.set(
                n,
                Action::Text {
                    number: *number,
                    bytes,
                },
            )
        }
        Core::Local { number, .. } => w.set(n, Action::Local { number: *number }),
        Core::Static { name, ty, .. } => {
            let name = copied(w.alloc, name)?;
            w.set(n, Action::Static { name, ty: *ty })
        }
        Core::Function { name, ty, .. } => {
            let name = copied(w.alloc, name)?;
            w.set(n, Action::Function { name, ty: *ty })
        }
        Core::Read { place, .. } => {
            value(unit, place.get(), full, n, w)?;
            w.set(n, Action::Read { place: n })
        }
        Core::Address { place, .. } => {
            value(unit, place.get(), full, n, w)?;
            w.used(n)
        }
        Core::Dereference { pointer, .. } => {
            value(unit, pointer.get(), full, n, w)?;
            w.set(n, Action::Dereference { pointer: n })
        }
        Core::Decay { array, .. } => {
            value(unit, array.get(), full, n, w)?;
            w.set(n, Action::Decay { array: n })
        }
        Core::Index { left, right, .. } => {
            let second = first(unit, left.get(), full, n, w)?;
            value(unit, right.get(), full, second, w)?;
            w.set(
                n,
                Action::Index {
                    left: n,
                    right: second,
                },
            )
        }
        Core::Convert { ty, operand, .. } => {
            value(unit, operand.get(), full, n, w)?;
            w.set(
                n,
                Action::Convert {
                    ty: *ty,
                    operand: n,
                },
            )
        }
        Core::FromVoid { ty, operand, .. } => {
            value(unit, operand.get(), full, n, w)?;
            w.set(
                n,
                Action::FromVoid {
                    ty: *ty,
                    operand: n,
                },
            )
        }
        Core::Operate {
            op,
            kind,
            left,
            right,
            ..
        } => {
            let second = first(unit, left.get(), full, n, w)?;
            value(unit, right.get(), full, second, w)?;
            w.set(
                n,
                Action::Operate {
                    op: *op,
                    kind: *kind,
                    left: n,
                    right: second,
                },
            )
        }
        Core::Unary {
            op,
            kind,
            operand,
            ..
        } => {
            value(unit, operand.get(), full, n, w)?;
            w.set(
                n,
                Action::Unary {
                    op: *op,
                    kind: *kind,
                    operand: n,
                },
            )
        }
        Core::Not { operand, .. } => {
            value(unit, operand.get(), full, n, w)?;
            w.set(n, Action::Not { operand: n })
        }
        Core::And { left, right, .. } => {
            truth(unit, left.get(), full, n, w)?;
            let before = w.begin();
            truth(unit, right.get(), full, n, w)?;
            let yes = w.begin();
            w.branch(n, before, yes)
        }
        Core::Or { left, right, .. } => {
            truth(unit, left.get(), full, n, w)?;
            let before = w.begin();
            let yes = w.begin();
            truth(unit, right.get(), full, n, w)?;
            w.branch(n, before, yes)
        }
        Core::PointerOperate {
            op,
            left,
            right,
            ..
        } => {
            let second = first(unit, left.get(), full, n, w)?;
            value(unit, right.get(), full, second, w)?;
            w.set(
                n,
                Action::PointerOperate {
                    op: *op,
                    left: n,
                    right: second,
                },
            )
        }
        Core::Conditional {
            condition,
            yes,
            no,
            ..
        } => {
            truth(unit, condition.get(), full, n, w)?;
            let before = w.begin();
            value(unit, yes.get(), full, n, w)?;
            let chosen = w.begin();
            value(unit, no.get(), full, n, w)?;
            w.branch(n, before, chosen)
        }
        Core::Comma { operands, .. } => all_values(unit, operands.as_slice(), full, n, w),
        Core::Store {
            place,
            value: stored,
            ..
        } => {
            let second = first(unit, place.get(), full, n, w)?;
            value(unit, stored.get(), full, second, w)?;
            w.act(Action::Store {
                place: n,
                value: second,
            })
        }
        Core::Update {
            place,
            change,
            value: by,
            ..
        } => {
            let second = first(unit, place.get(), full, n, w)?;
            value(unit, by.get(), full, second, w)?;
            updated(*change, n, w)
        }
        Core::Increment {
            is_postfix: false,
            change,
            place,
            ..
        } => {
            value(unit, place.get(), full, n, w)?;
            stepped(*change, n, w)
        }
        Core::Increment {
            is_postfix: true,
            change,
            place,
            ..
        } => {
            let second = behind(n)?;
            value(unit, place.get(), full, second, w)?;
            stepped_behind(*change, n, w)
        }
        Core::Call {
            function,
            ty,
            object,
            arguments,
            ..
        } => match object {
            None => called(unit, arguments.as_slice(), function, *ty, full, n, w),
            Some(_) => Ok(()),
        },
        Core::PointerCall {
            object,
            pointer,
            ty,
            arguments,
            ..
        } => match object {
            None => {
                let local = callee(unit, pointer.get(), *ty, full, n, w)?;
                pointed(unit, arguments.as_slice(), *ty, full, n, local, w)
            }
            Some(_) => Ok(()),
        },
        Core::Temporary { ty, start, .. } => temporary(unit, start.get(), *ty, full, n, w),
        Core::Bind {
            holder,
            operand,
            ..
        } => match holder {
            Holder::NoTemporary => value(unit, operand.get(), full, n, w),
            Holder::StaticTemporary(name) => static_held(unit, operand.get(), name, full, n, w),
            Holder::LocalTemporary { local, ty } => {
                held(unit, operand.get(), *local, *ty, full, n, w)
            }
        },
        _ => Ok(()),
    }
}

/// Writes a first operand into this register, and gives the next one.
#[cycle(values)]
#[tactic(auto, unfolding(crate::specs::Pieces::left))]
fn first(unit: &CoreUnit, e: &Core, full: Full, n: u32, w: &mut Writing) -> Result<u32, Memory>
    requires { are_known (tables_of unit.now) e.now ≡ true }
    ensures written { OnOk result (w.new ≡ spec.left (piece unit.now.types e.now) full n w.old) }
    ensures next { IfOk result (λ second. second ≡ n + 1) }
{
    let second = behind(n)?;
    value(unit, e, full, n, w)?;
    w.used(n)?;
    Ok(second)
}

/// Writes 1 into this register where a value counts as true, else 0.
#[cycle(values)]
#[tactic(auto, unfolding(crate::specs::Pieces::truth))]
fn truth(unit: &CoreUnit, e: &Core, full: Full, n: u32, w: &mut Writing) -> Result<(), Memory>
    requires { are_known (tables_of unit.now) e.now ≡ true }
    ensures { OnOk result (w.new ≡ spec.truth (piece unit.now.types e.now) full n w.old) }
{
    value(unit, e, full, n, w)?;
    w.set(n, Action::Truth { operand: n })
}

/// Writes a temporary of the full expression, and its place into this register; its flag tells that it is there (12.2).
#[cycle(values)]
#[tactic(auto, unfolding(crate::specs::Pieces::temporary))]
fn temporary(
    unit: &CoreUnit,
    e: &Core,
    ty: TyId,
    full: Full,
    n: u32,
    w: &mut Writing,
) -> Result<(), Memory>
    requires { are_known (tables_of unit.now) e.now ≡ true }
    ensures { OnOk result (w.new ≡ spec.temporary ty (piece unit.now.types e.now) full n w.old) }
{
    let local = w.next;
    let object = behind(n)?;
    let first = behind(object)?;
    let flag = full.flag(local)?;
    w.pass(1)?;
    w.set(object, Action::Declare { local, ty })?;
    w.set(n, Action::Local { number: local })?;
    value(unit, e, full, first, w)?;
    w.act(Action::First {
        place: object,
        value: first,
    })?;
    w.set(flag, Action::Number { value: 1 })
}

/// Writes values in order, each into the same register (5.18).
#[cycle(values)]
fn all_values(
    unit: &CoreUnit,
    all: &[Core],
    full: Full,
    n: u32,
    w: &mut Writing,
) -> Result<(), Memory>
    requires { all_of (tables_of unit.now) (map (are_known (tables_of unit.now)) all.now) ≡ true }
    ensures { OnOk result (w.new ≡ spec.all_values (map (piece unit.now.types) all.now) full n w.old) }
{
    for e in all {
        value(unit, e, full, n, w)?;
    }
    Ok(())
}

/// Writes a call of the function of this name and type (5.2.2).
#[cycle(values)]
#[tactic(auto, unfolding(crate::specs::Pieces::called))]
fn called(
    unit: &CoreUnit,
    given: &[Core],
    function: &Name,
    ty: TyId,
    full: Full,
    n: u32,
    w: &mut Writing,
) -> Result<(), Memory>
    requires known { all_of (tables_of unit.now) (map (are_known (tables_of unit.now)) given.now) ≡ true }
    requires typed { ty < length unit.now.types.types }
    ensures { OnOk result (w.new ≡ spec.called function.now ty (parameters_at unit.now.types ty) (map (piece unit.now.types) given.now) full n w.old) }
{
    let first = w.next;
    let types = parameters(unit, ty);
    let name = copied(w.alloc, function)?;
    w.act(Action::Function { name, ty })?;
    w.pass(types.len())?;
    arguments(unit, given, types, full, n, first, w)?;
    let arguments = numbers(w.alloc, first, types.len())?;
    let function = copied(w.alloc, function)?;
    w.set(
        n,
        Action::Call {
            function,
            ty,
            object: None,
            arguments,
            result: None,
        },
    )
}

/// Writes the value of a pointer to a function of this type, which is called, and gives the local that is its first parameter (5.2.2).
#[cycle(values)]
#[tactic(auto, unfolding(crate::specs::Pieces::callee))]
fn callee(
    unit: &CoreUnit,
    pointer: &Core,
    ty: TyId,
    full: Full,
    n: u32,
    w: &mut Writing,
) -> Result<u32, Memory>
    requires known { are_known (tables_of unit.now) pointer.now ≡ true }
    requires typed { ty < length unit.now.types.types }
    ensures written { OnOk result (w.new ≡ spec.callee (parameters_at unit.now.types ty) (piece unit.now.types pointer.now) full n w.old) }
    ensures local { IfOk result (λ k. k ≡ w.old.next) }
{
    let first = w.next;
    w.pass(parameters(unit, ty).len())?;
    value(unit, pointer, full, n, w)?;
    w.used(n)?;
    Ok(first)
}

/// Writes a call of the function that the pointer in this register holds, for parameters that are the locals from the first on (5.2.2).
#[cycle(values)]
#[tactic(auto, unfolding(crate::specs::Pieces::pointed))]
fn pointed(
    unit: &CoreUnit,
    given: &[Core],
    ty: TyId,
    full: Full,
    n: u32,
    first: u32,
    w: &mut Writing,
) -> Result<(), Memory>
    requires known { all_of (tables_of unit.now) (map (are_known (tables_of unit.now)) given.now) ≡ true }
    requires typed { ty < length unit.now.types.types }
    ensures { OnOk result (w.new ≡ spec.pointed ty (parameters_at unit.now.types ty) (map (piece unit.now.types) given.now) full n first w.old) }
{
    let types = parameters(unit, ty);
    let second = behind(n)?;
    arguments(unit, given, types, full, second, first, w)?;
    let arguments = numbers(w.alloc, first, types.len())?;
    w.set(
        n,
        Action::PointerCall {
            object: None,
            pointer: n,
            ty,
            arguments,
            result: None,
        },
    )
}

/// Writes arguments, for parameters of these types, whose objects are the locals from the first on.
#[cycle(values)]
fn arguments(
    unit: &CoreUnit,
    all: &[Core],
    types: &[TyId],
    full: Full,
    n: u32,
    first: u32,
    w: &mut Writing,
) -> Result<(), Memory>
    requires { all_of (tables_of unit.now) (map (are_known (tables_of unit.now)) all.now) ≡ true }
    ensures { OnOk result (w.new ≡ spec.arguments types.now 0 (map (piece unit.now.types) all.now) full n first w.old) }
{
    let mut index: usize = 0;
    for e in all {
        argument(unit, e, type_at(types, index), full, n, first, index, w)?;
        index += 1;
    }
    Ok(())
}

/// Writes the argument of this number, if there is a parameter for it.
#[cycle(values)]
#[tactic(auto, unfolding(crate::specs::Pieces::argument))]
fn argument(
    unit: &CoreUnit,
    e: &Core,
    ty: Option<TyId>,
    full: Full,
    n: u32,
    first: u32,
    index: usize,
    w: &mut Writing,
) -> Result<(), Memory>
    requires { are_known (tables_of unit.now) e.now ≡ true }
    ensures { OnOk result (w.new ≡ spec.argument ty (piece unit.now.types e.now) full n (first + index) w.old) }
{
    match ty {
        None => {
            let count = width(w.alloc, unit, e)?;
            w.pass(count)
        }
        Some(ty) => {
            let local = beyond(first, index)?;
            let second = behind(n)?;
            w.set(n, Action::Declare { local, ty })?;
            value(unit, e, full, second, w)?;
            w.act(Action::First {
                place: n,
                value: second,
            })
        }
    }
}
