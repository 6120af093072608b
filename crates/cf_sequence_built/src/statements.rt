ghost use Rattle.std.specs.Prelude.{◌≡◌, ◌<◌, length, map, true};
ghost use Rattle.std.specs.Option.{option_map};
ghost use Rattle.cf_core.specs.FromTypes.{Tables, type_of};
ghost use Rattle.cf_core.specs.FromUnit.{tables_of};
ghost use Rattle.cf_core.specs.Numbers.{are_known, all_of, maybe_of};
ghost use Rattle.cf_sequence_built.specs.Unbuilt as spec;
ghost use Rattle.cf_sequence_built.specs.Unbuilt.{test};

use crate::types::{element, is_reference, is_row};
use crate::values::value;
use cf_base::Boxed;
use cf_core::{Core, CoreUnit, Holder};
use cf_types::TyId;

/// The place of the first construct of an expression statement that is not built.
fn start(unit: &CoreUnit, e: &Core) -> Option<u32>
    requires { are_known (tables_of unit.now) e.now ≡ true }
    ensures { result ≡ spec.start (test (tables_of unit.now) e.now) }
{
    match e {
        Core::Blank { .. } => None,
        _ => value(unit, e),
    }
}

/// Of the initialiser of a local.
fn initial(unit: &CoreUnit, e: &Core) -> Option<u32>
    requires { are_known (tables_of unit.now) e.now ≡ true }
    ensures { result ≡ spec.initial (test (tables_of unit.now) e.now) }
{
    if is_filling(e) { None } else { start(unit, e) }
}

/// Of that of an object of this type: a list, or another one (8.4.1).
#[cycle(initials)]
fn element_start(unit: &CoreUnit, ty: TyId, e: &Core) -> Option<u32>
    requires known { are_known (tables_of unit.now) e.now ≡ true }
    requires typed { ty < length unit.now.types.types }
    ensures { result ≡ spec.element_start (type_of (tables_of unit.now) ty) (test (tables_of unit.now) e.now) }
{
    match e {
        Core::List { at, starts, rest } => {
            if is_row(unit, ty) {
                let inner = element(unit, ty);
                each_element(unit, inner, starts.as_slice()).or(filler(*at, rest.get()))
            } else {
                Some(*at)
            }
        }
        _ => initial(unit, e),
    }
}

/// Of those of the elements of a list, in order.
#[cycle(initials)]
fn each_element(unit: &CoreUnit, ty: TyId, all: &[Core]) -> Option<u32>
    requires known { all_of (tables_of unit.now) (map (are_known (tables_of unit.now)) all.now) ≡ true }
    requires typed { ty < length unit.now.types.types }
    ensures { result ≡ spec.each_element (type_of (tables_of unit.now) ty) (map (test (tables_of unit.now)) all.now) }
{
    for e in all {
        let found = element_start(unit, ty, e);
        if found.is_some() {
            return found;
        }
    }
    None
}

/// Of what fills the elements that a list at this place leaves out.
fn filler(at: u32, e: &Core) -> Option<u32>
    ensures { (tables : Tables) → result ≡ spec.filler at (test tables e.now) }
{
    if is_filling(e) { None } else { Some(at) }
}

/// Of that of the local of this number and type, which is declared at this place: a reference's temporary is a local behind it (8.4.3).
fn local(unit: &CoreUnit, at: u32, number: u32, ty: TyId, e: &Core) -> Option<u32>
    requires known { are_known (tables_of unit.now) e.now ≡ true }
    requires typed { ty < length unit.now.types.types }
    ensures { result ≡ spec.local at number (type_of (tables_of unit.now) ty) (test (tables_of unit.now) e.now) }
{
    match e {
        Core::Bind {
            at: place,
            holder: Holder::LocalTemporary { local: held, ty },
            operand,
        } => {
            if number < *held {
                kept(unit, *place, *ty, operand.get())
            } else {
                Some(at)
            }
        }
        _ => element_start(unit, ty, e),
    }
}

/// Of the value of a temporary of this type, which is no reference.
fn kept(unit: &CoreUnit, at: u32, ty: TyId, e: &Core) -> Option<u32>
    requires typed { ty < length unit.now.types.types }
    requires known { are_known (tables_of unit.now) e.now ≡ true }
    ensures { result ≡ spec.kept (tables_of unit.now) at ty (test (tables_of unit.now) e.now).value }
{
    if is_reference(unit, ty) {
        Some(at)
    } else {
        value(unit, e)
    }
}

/// The number behind those of a local and of the temporary that it binds.
fn behind(number: u32, e: &Core) -> u64
    ensures { (tables : Tables) → result ≡ spec.behind number (test tables e.now) }
{
    match e {
        Core::Bind {
            holder: Holder::LocalTemporary { local: held, .. },
            ..
        } => *held as u64 + 1,
        _ => number as u64 + 1,
    }
}

/// Of a condition or a step, if there is one.
fn given(unit: &CoreUnit, e: &Option<Boxed<Core>>) -> Option<u32>
    requires { maybe_of (tables_of unit.now) (option_map (are_known (tables_of unit.now)) e.now) ≡ true }
    ensures { result ≡ spec.given (option_map (test (tables_of unit.now)) e.now) }
{
    match e {
        None => None,
        Some(e) => value(unit, e.get()),
    }
}

/// Whether an initialiser does nothing.
pub fn is_blank(e: &Core) -> bool
    ensures { (tables : Tables) → result ≡ (test tables e.now).is_blank }
{
    matches!(e, Core::Blank { .. })
}

/// Whether an initialiser fills its object by itself: zeros, or the characters of a literal (8.4.1, 8.4.2).
pub fn is_filling(e: &Core) -> bool
    ensures tested { (tables : Tables) → result ≡ (test tables e.now).is_filling }
    ensures constant { result ≡ (spec.constant e.now).is_filling }
{
    matches!(e, Core::Zeros { .. } | Core::Characters { .. })
}

/// Whether it is a label of a switch.
pub fn is_label(s: &Core) -> bool
    ensures { (tables : Tables) → result ≡ (test tables s.now).is_label }
{
    matches!(s, Core::Case { .. } | Core::Default { .. })
}

/// The number behind that of each local that a statement declares in the scope at hand.
#[cycle(nexts)]
pub fn next(below: u64, s: &Core) -> u64
    ensures { (tables : Tables) → result ≡ (test tables s.now).next below }
{
    match s {
        Core::Declare {
            local: number,
            start: e,
            ..
        } => behind(*number, e.get()),
        Core::Sequence { statements, .. } => next_of_all(below, statements.as_slice()),
        Core::If { yes, no, .. } => next_or(next(below, yes.get()), no),
        _ => below,
    }
}

/// The same of the statement behind `else`, if there is one.
#[cycle(nexts)]
pub fn next_or(below: u64, s: &Option<Boxed<Core>>) -> u64
    ensures { (tables : Tables) → result ≡ spec.next_or below (option_map (test tables) s.now) }
{
    match s {
        None => below,
        Some(s) => next(below, s.get()),
    }
}

/// The same of statements in order.
#[cycle(nexts)]
fn next_of_all(below: u64, all: &[Core]) -> u64
    ensures { (tables : Tables) → result ≡ spec.next_of_all below (map (test tables) all.now) }
{
    let mut behind = below;
    for s in all {
        behind = next(behind, s);
    }
    behind
}

/// The place of the first construct of a statement that is not built, where the locals below this number are those of the open scopes.
#[cycle(statements)]
pub fn statement(unit: &CoreUnit, below: u64, s: &Core) -> Option<u32>
    requires { are_known (tables_of unit.now) s.now ≡ true }
    ensures { result ≡ (test (tables_of unit.now) s.now).statement below }
{
    match s {
        Core::Full { expression, .. } => start(unit, expression.get()),
        Core::Block {
            statements: all,
            ..
        }
        | Core::Sequence {
            statements: all,
            ..
        } => { each_statement(unit, below, all.as_slice()) }
        Core::Declare {
            at,
            local: number,
            ty,
            start: e,
        } => {
            if below <= *number as u64 {
                local(unit, *at, *number, *ty, e.get())
            } else {
                Some(*at)
            }
        }
        Core::If {
            condition,
            yes,
            no,
            ..
        } => {
            let behind = next(below, yes.get());
            let sides = statement(unit, below, yes.get()).or(statement_or(unit, behind, no));
            value(unit, condition.get()).or(sides)
        }
        Core::Loop {
            condition,
            step,
            body,
            ..
        } => { given(unit, condition).or(given(unit, step).or(statement(unit, below, body.get()))) }
        Core::Switch { operand, body, .. } => {
            value(unit, operand.get()).or(each_case(unit, below, body.as_slice()))
        }
        Core::Break { .. } | Core::Continue { .. } => None,
        Core::Return { value: e, .. } => given(unit, e),
        _ => Some(s.at()),
    }
}

/// Of statements in order.
#[cycle(statements)]
fn each_statement(unit: &CoreUnit, below: u64, all: &[Core]) -> Option<u32>
    requires { all_of (tables_of unit.now) (map (are_known (tables_of unit.now)) all.now) ≡ true }
    ensures { result ≡ spec.each_statement below (map (test (tables_of unit.now)) all.now) }
{
    let mut behind = below;
    for s in all {
        let found = statement(unit, behind, s);
        if found.is_some() {
            return found;
        }
        behind = next(behind, s);
    }
    None
}

/// Of the statement behind `else`, if there is one (6.4.1).
#[cycle(statements)]
fn statement_or(unit: &CoreUnit, below: u64, s: &Option<Boxed<Core>>) -> Option<u32>
    requires { maybe_of (tables_of unit.now) (option_map (are_known (tables_of unit.now)) s.now) ≡ true }
    ensures { result ≡ spec.statement_or below (option_map (test (tables_of unit.now)) s.now) }
{
    match s {
        None => None,
        Some(s) => statement(unit, below, s.get()),
    }
}

/// Of one label or statement of a switch (6.4.2).
#[cycle(statements)]
fn case(unit: &CoreUnit, below: u64, s: &Core) -> Option<u32>
    requires { are_known (tables_of unit.now) s.now ≡ true }
    ensures { result ≡ spec.case below (test (tables_of unit.now) s.now) }
{
    if is_label(s) {
        None
    } else {
        statement(unit, below, s)
    }
}

/// Of the labels and statements of a switch.
#[cycle(statements)]
fn each_case(unit: &CoreUnit, below: u64, all: &[Core]) -> Option<u32>
    requires { all_of (tables_of unit.now) (map (are_known (tables_of unit.now)) all.now) ≡ true }
    ensures { result ≡ spec.each_case below (map (test (tables_of unit.now)) all.now) }
{
    let mut first = below;
    for s in all {
        let found = case(unit, first, s);
        if found.is_some() {
            return found;
        }
        first = next(first, s);
    }
    None
}
