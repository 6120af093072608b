ghost use Rattle.std.specs.Prelude.{◌≡◌, map, true};
ghost use Rattle.cf_core.specs.FromUnit.{tables_of};
ghost use Rattle.cf_core.specs.Numbers.{are_known, all_of};
ghost use Rattle.cf_sequence_built.specs.Unbuilt as spec;
ghost use Rattle.cf_sequence_built.specs.Unbuilt.{test};

use crate::types::{is_called, is_reference};
use cf_core::{Core, CoreUnit, Holder};

/// The place of the first construct of an expression that is not built.
#[cycle(values)]
pub fn value(unit: &CoreUnit, e: &Core) -> Option<u32>
    requires { are_known (tables_of unit.now) e.now ≡ true }
    ensures { result ≡ (test (tables_of unit.now) e.now).value }
{
    match e {
        Core::Number { .. }
        | Core::Text { .. }
        | Core::Local { .. }
        | Core::Static { .. }
        | Core::Function { .. } => None,
        Core::Read { place: a, .. }
        | Core::Address { place: a, .. }
        | Core::Dereference { pointer: a, .. }
        | Core::Decay { array: a, .. }
        | Core::Convert { operand: a, .. }
        | Core::FromVoid { operand: a, .. }
        | Core::Unary { operand: a, .. }
        | Core::Not { operand: a, .. }
        | Core::Increment { place: a, .. } => value(unit, a.get()),
        Core::Index {
            left: a,
            right: b,
            ..
        }
        | Core::Operate {
            left: a,
            right: b,
            ..
        }
        | Core::And {
            left: a,
            right: b,
            ..
        }
        | Core::Or {
            left: a,
            right: b,
            ..
        }
        | Core::PointerOperate {
            left: a,
            right: b,
            ..
        }
        | Core::Store {
            place: a,
            value: b,
            ..
        }
        | Core::Update {
            place: a,
            value: b,
            ..
        } => value(unit, a.get()).or(value(unit, b.get())),
        Core::Conditional {
            condition,
            yes,
            no,
            ..
        } => { value(unit, condition.get()).or(value(unit, yes.get()).or(value(unit, no.get()))) }
        Core::Comma { at, operands } => some_values(unit, *at, operands.as_slice()),
        Core::Call {
            at,
            ty,
            object: None,
            arguments,
            ..
        } => {
            if is_called(unit, *ty) {
                each_value(unit, arguments.as_slice())
            } else {
                Some(*at)
            }
        }
        Core::PointerCall {
            at,
            object: None,
            pointer,
            ty,
            arguments,
        } => {
            if is_called(unit, *ty) {
                value(unit, pointer.get()).or(each_value(unit, arguments.as_slice()))
            } else {
                Some(*at)
            }
        }
        Core::Temporary { at, ty, start } => {
            if is_reference(unit, *ty) {
                Some(*at)
            } else {
                value(unit, start.get())
            }
        }
        Core::Bind {
            holder: Holder::NoTemporary,
            operand,
            ..
        } => value(unit, operand.get()),
        _ => Some(e.at()),
    }
}

/// The same of expressions in order.
#[cycle(values)]
fn each_value(unit: &CoreUnit, all: &[Core]) -> Option<u32>
    requires { all_of (tables_of unit.now) (map (are_known (tables_of unit.now)) all.now) ≡ true }
    ensures { result ≡ spec.each_value (map (test (tables_of unit.now)) all.now) }
{
    for e in all {
        let found = value(unit, e);
        if found.is_some() {
            return found;
        }
    }
    None
}

/// The same of expressions of which one at least is there; where none is, the place of what stands around them.
#[cycle(values)]
#[tactic(auto, unfolding(crate::specs::Unbuilt::some_values))]
fn some_values(unit: &CoreUnit, at: u32, all: &[Core]) -> Option<u32>
    requires { all_of (tables_of unit.now) (map (are_known (tables_of unit.now)) all.now) ≡ true }
    ensures { result ≡ spec.some_values at (map (test (tables_of unit.now)) all.now) }
{
    if all.is_empty() {
        Some(at)
    } else {
        each_value(unit, all)
    }
}

/// Whether an expression is known before any function is entered: a number, or the place or the address of an object or a function (8.4).
pub fn is_constant(e: &Core) -> bool
    ensures { result ≡ (spec.constant e.now).value }
{
    match e {
        Core::Number { .. } | Core::Text { .. } | Core::Static { .. } | Core::Function { .. } =>
            true,
        Core::Address { place: a, .. }
        | Core::Dereference { pointer: a, .. }
        | Core::Decay { array: a, .. }
        | Core::Convert { operand: a, .. }
        | Core::Unary { operand: a, .. }
        | Core::Not { operand: a, .. } => is_constant(a.get()),
        Core::Index {
            left: a,
            right: b,
            ..
        }
        | Core::Operate {
            left: a,
            right: b,
            ..
        }
        | Core::And {
            left: a,
            right: b,
            ..
        }
        | Core::Or {
            left: a,
            right: b,
            ..
        }
        | Core::PointerOperate {
            left: a,
            right: b,
            ..
        } => is_constant(a.get()) && is_constant(b.get()),
        Core::Conditional {
            condition,
            yes,
            no,
            ..
        } => is_constant(condition.get()) && is_constant(yes.get()) && is_constant(no.get()),
        _ => false,
    }
}
