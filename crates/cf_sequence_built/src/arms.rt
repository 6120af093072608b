//! What is declared as the statement of an `if` by itself: it is there in its arm alone, and ends with the scope around it (6.5.3).

ghost use Rattle.std.specs.Prelude.{◌≡◌, false, map};
ghost use Rattle.std.specs.Option.{option_map};
ghost use Rattle.cf_core.specs.FromUnit.{tables_of};
ghost use Rattle.cf_sequence_built.specs.Unbuilt as spec;
ghost use Rattle.cf_sequence_built.specs.Unbuilt.{test};

use crate::statements::{is_label, next, next_or};
use cf_base::Boxed;
use cf_core::{Core, CoreUnit};

/// Whether a statement declares locals in the scope at hand, also in an arm of an `if`.
#[cycle(declares)]
fn declares(unit: &CoreUnit, s: &Core) -> bool
    ensures { result ≡ (test (tables_of unit.now) s.now).declares }
{
    match s {
        Core::Declare { .. } => true,
        Core::Sequence { statements, .. } => any_declares(unit, statements.as_slice()),
        Core::If { yes, no, .. } => declares(unit, yes.get()) || or_declares(unit, no),
        _ => false,
    }
}

/// Whether one of these does.
#[cycle(declares)]
fn any_declares(unit: &CoreUnit, all: &[Core]) -> bool
    ensures { result ≡ spec.any_declares (map (test (tables_of unit.now)) all.now) }
{
    for s in all {
        if declares(unit, s) {
            return true;
        }
    }
    false
}

/// Whether the statement behind `else` does, if there is one.
#[cycle(declares)]
fn or_declares(unit: &CoreUnit, s: &Option<Boxed<Core>>) -> bool
    ensures { result ≡ spec.or_declares (option_map (test (tables_of unit.now)) s.now) }
{
    match s {
        None => false,
        Some(s) => declares(unit, s.get()),
    }
}

/// Whether a statement has an `if` in the scope at hand of which an arm declares.
#[cycle(arms)]
fn arms(unit: &CoreUnit, s: &Core) -> bool
    ensures { result ≡ (test (tables_of unit.now) s.now).arms }
{
    match s {
        Core::Sequence { statements, .. } => any_arms(unit, statements.as_slice()),
        Core::If { yes, no, .. } => declares(unit, yes.get()) || or_declares(unit, no),
        _ => false,
    }
}

/// Whether one of these has.
#[cycle(arms)]
fn any_arms(unit: &CoreUnit, all: &[Core]) -> bool
    ensures { result ≡ spec.any_arms (map (test (tables_of unit.now)) all.now) }
{
    for s in all {
        if arms(unit, s) {
            return true;
        }
    }
    false
}

/// The switch at this place, where a label of it stands behind such an `if`.
fn passed(unit: &CoreUnit, at: u32, all: &[Core]) -> Option<u32>
    ensures { result ≡ spec.passed at false (map (test (tables_of unit.now)) all.now) }
{
    let mut behind = false;
    for s in all {
        if behind && is_label(s) {
            return Some(at);
        }
        behind = behind || arms(unit, s);
    }
    None
}

/// The place of the first `if` in a statement whose arms declare locals that are not among so many, or of a switch of which a label stands behind an `if` that declares.
#[cycle(unfits)]
pub fn unfit(unit: &CoreUnit, count: u64, s: &Core) -> Option<u32>
    ensures { result ≡ (test (tables_of unit.now) s.now).unfit count }
{
    match s {
        Core::Block {
            statements: all,
            ..
        }
        | Core::Sequence {
            statements: all,
            ..
        } => { each_unfit(unit, count, all.as_slice()) }
        Core::If { at, yes, no, .. } => {
            if next_or(next(0, yes.get()), no) <= count {
                unfit(unit, count, yes.get()).or(or_unfit(unit, count, no))
            } else {
                Some(*at)
            }
        }
        Core::Loop { body, .. } => unfit(unit, count, body.get()),
        Core::Switch { at, body, .. } => {
            passed(unit, *at, body.as_slice()).or(each_unfit(unit, count, body.as_slice()))
        }
        _ => None,
    }
}

/// The same of statements in order.
#[cycle(unfits)]
fn each_unfit(unit: &CoreUnit, count: u64, all: &[Core]) -> Option<u32>
    ensures { result ≡ spec.each_unfit count (map (test (tables_of unit.now)) all.now) }
{
    for s in all {
        let found = unfit(unit, count, s);
        if found.is_some() {
            return found;
        }
    }
    None
}

/// The same of the statement behind `else`, if there is one.
#[cycle(unfits)]
fn or_unfit(unit: &CoreUnit, count: u64, s: &Option<Boxed<Core>>) -> Option<u32>
    ensures { result ≡ spec.or_unfit count (option_map (test (tables_of unit.now)) s.now) }
{
    match s {
        None => None,
        Some(s) => unfit(unit, count, s.get()),
    }
}
