//! What the labels of a switch pass: a switch before it declares the locals that stand before each label, in order (6.7).

ghost use Rattle.std.specs.Prelude.{◌≡◌, [], false, is_some, map, IfOk, OnOk};
ghost use Rattle.std.specs.Option.{option_map};
ghost use Rattle.cf_sequence_stmt.specs.Bodies.{there, passed_at, with_held};
ghost use Rattle.cf_sequence_stmt.specs.Steps.{step};
ghost use Rattle.cf_sequence_stmt.specs.Steps as spec;

use crate::body::{Body, Open};
use crate::initials::held;
use cf_base::{Boxed, Items, Memory};
use cf_core::{Core, CoreUnit};
use cf_plain::{Action, Plain};
use cf_sequence_expr::Writing;

/// Writes the switch before a switch by the number in this register, if a label passes a local.
pub fn selected(unit: &CoreUnit, all: &[Core], register: u32, b: &mut Body) -> Result<(), Memory>
    ensures { OnOk result (b.new ≡ spec.selected register (map (step unit.now.types) all.now) b.old) }
{
    let before = b.begin();
    if passing(unit, all, b)? {
        b.switch(register, before)
    } else {
        b.resume(before);
        Ok(())
    }
}

/// Writes the labels of a switch with what each passes, and tells whether one passes a local.
fn passing(unit: &CoreUnit, all: &[Core], b: &mut Body) -> Result<bool, Memory>
    ensures written { OnOk result (b.new ≡ spec.passing (map (step unit.now.types) all.now) [] b.old) }
    ensures passes { IfOk result (λ is. is ≡ spec.passes false (map (step unit.now.types) all.now) []) }
{
    let mut locals = Items::new(b.writing.alloc);
    let mut found = false;
    for s in all {
        found = found || (is_label(unit, s) && locals.len() > 0);
        labelled(unit, s, locals.as_slice(), b)?;
        declares(unit, s, &mut locals)?;
    }
    Ok(found)
}

/// Whether a statement is a label of a switch.
fn is_label(unit: &CoreUnit, s: &Core) -> bool
    ensures { result ≡ is_some (step unit.now.types s.now).label }
{
    matches!(s, Core::Case { .. } | Core::Default { .. })
}

/// Writes a label behind which these locals are there.
fn labelled(unit: &CoreUnit, s: &Core, locals: &[Open], b: &mut Body) -> Result<(), Memory>
    ensures { OnOk result (b.new ≡ spec.labelled (step unit.now.types s.now).label locals.now b.old) }
{
    match s {
        Core::Case { value, .. } => pass_at(Plain::Case { value: *value }, locals, b),
        Core::Default { .. } => pass_at(Plain::Default, locals, b),
        _ => Ok(()),
    }
}

/// Writes a label, the declarations of these locals, and the end of the switch.
#[tactic(auto, unfolding(crate::specs::Bodies::passed_at))]
fn pass_at(label: Plain, locals: &[Open], b: &mut Body) -> Result<(), Memory>
    ensures { OnOk result (b.new ≡ passed_at label locals.now b.old) }
{
    b.put(label)?;
    declare_all(locals, &mut b.writing)?;
    b.put(Plain::Break)
}

/// Writes the declarations of these locals, the oldest first.
fn declare_all(locals: &[Open], w: &mut Writing) -> Result<(), Memory>
    ensures { OnOk result (w.new ≡ there locals.now w.old) }
{
    match locals.split_first() {
        None => Ok(()),
        Some((oldest, newer)) => {
            w.act(Action::Declare {
                local: oldest.number,
                ty: oldest.ty,
            })?;
            declare_all(newer, w)
        }
    }
}

/// Adds the local that is a reference's temporary, if there is one.
fn hold_in(held: Option<Open>, locals: &mut Items<Open>) -> Result<(), Memory>
    ensures { OnOk result (locals.new ≡ with_held held locals.old) }
{
    match held {
        None => Ok(()),
        Some(x) => locals.push(x),
    }
}

/// Adds the locals that a statement declares in the scope at hand, also in the arms of an `if`.
#[cycle(declares)]
fn declares(unit: &CoreUnit, s: &Core, locals: &mut Items<Open>) -> Result<(), Memory>
    ensures { OnOk result (locals.new ≡ (step unit.now.types s.now).opens locals.old) }
{
    match s {
        Core::Declare {
            local,
            ty,
            start,
            ..
        } => {
            hold_in(held(start.get()), locals)?;
            locals.push(Open {
                number: *local,
                ty: *ty,
            })
        }
        Core::Sequence { statements, .. } => all_declare(unit, statements.as_slice(), locals),
        Core::If { yes, no, .. } => {
            declares(unit, yes.get(), locals)?;
            or_declares(unit, no, locals)
        }
        _ => Ok(()),
    }
}

/// Adds those of the statement behind `else`, if there is one.
#[cycle(declares)]
fn or_declares(
    unit: &CoreUnit,
    s: &Option<Boxed<Core>>,
    locals: &mut Items<Open>,
) -> Result<(), Memory>
    ensures { OnOk result (locals.new ≡ spec.or_open (option_map (step unit.now.types) s.now) locals.old) }
{
    match s {
        None => Ok(()),
        Some(s) => declares(unit, s.get(), locals),
    }
}

/// Adds those that statements declare, in order.
#[cycle(declares)]
fn all_declare(unit: &CoreUnit, all: &[Core], locals: &mut Items<Open>) -> Result<(), Memory>
    ensures { OnOk result (locals.new ≡ spec.all_open (map (step unit.now.types) all.now) locals.old) }
{
    for s in all {
        declares(unit, s, locals)?;
    }
    Ok(())
}
