//! Statements (6).

ghost use Rattle.std.specs.Prelude.{◌≡◌, map, true, OnOk};
ghost use Rattle.std.specs.Option.{option_map};
ghost use Rattle.cf_core.specs.FromUnit.{tables_of};
ghost use Rattle.cf_core.specs.Numbers.{are_known, all_of, maybe_of};
ghost use Rattle.cf_sequence_stmt.specs.Steps.{step};
ghost use Rattle.cf_sequence_stmt.specs.Steps as spec;

use crate::body::{Body, Ways};
use crate::expressions::{full, given, tested};
use crate::initials::declared;
use crate::passing::selected;
use cf_base::{Boxed, Items, Memory};
use cf_core::{Core, CoreUnit, LoopForm};
use cf_plain::Plain;

/// Writes a statement. What is none, or is not built yet, writes nothing.
#[cycle(statements)]
pub fn statement(unit: &CoreUnit, s: &Core, ways: Ways, b: &mut Body) -> Result<(), Memory>
    requires { are_known (tables_of unit.now) s.now ≡ true }
    ensures { OnOk result (b.new ≡ (step unit.now.types s.now).act ways b.old) }
{
    match s {
        Core::Full { expression, .. } => full(unit, expression.get(), b),
        Core::Block {
            statements: all,
            ..
        } => {
            let mark = b.scope.len();
            statements(unit, all.as_slice(), ways, b)?;
            b.close(mark)
        }
        Core::Sequence {
            statements: all,
            ..
        } => statements(unit, all.as_slice(), ways, b),
        Core::Declare {
            local,
            ty,
            start,
            ..
        } => declared(unit, start.get(), *local, *ty, b),
        Core::If {
            condition,
            yes,
            no,
            ..
        } => {
            let n = tested(unit, condition.get(), b)?;
            let mark = b.scope.len();
            let before = b.begin();
            statement(unit, yes.get(), ways, b)?;
            let first = b.begin();
            let aside = b.set_aside(mark)?;
            otherwise(unit, no, ways, b)?;
            b.branch(n, before, first)?;
            b.take_back(mark, aside)
        }
        Core::Loop {
            form,
            condition,
            step: further,
            body,
            ..
        } => { looped(unit, body.get(), *form, condition, further, b) }
        Core::Switch { operand, body, .. } => {
            selection(unit, body.as_slice(), operand.get(), ways, b)
        }
        Core::Case { value, .. } => b.put(Plain::Case { value: *value }),
        Core::Default { .. } => b.put(Plain::Default),
        Core::Break { .. } => {
            b.leave(ways.breaks)?;
            b.put(Plain::Break)
        }
        Core::Continue { .. } => {
            b.leave(ways.continues)?;
            b.put(Plain::Continue)
        }
        Core::Return { value, .. } => returned(unit, value, b),
        Core::Number { .. }
        | Core::Text { .. }
        | Core::This { .. }
        | Core::Local { .. }
        | Core::Static { .. }
        | Core::Function { .. }
        | Core::Member { .. }
        | Core::Read { .. }
        | Core::Address { .. }
        | Core::Dereference { .. }
        | Core::Decay { .. }
        | Core::Index { .. }
        | Core::Convert { .. }
        | Core::Up { .. }
        | Core::Down { .. }
        | Core::FromVoid { .. }
        | Core::ToMember { .. }
        | Core::DataPointer { .. }
        | Core::FunctionPointer { .. }
        | Core::Through { .. }
        | Core::Operate { .. }
        | Core::Unary { .. }
        | Core::Not { .. }
        | Core::And { .. }
        | Core::Or { .. }
        | Core::PointerOperate { .. }
        | Core::Conditional { .. }
        | Core::Comma { .. }
        | Core::Store { .. }
        | Core::Update { .. }
        | Core::Increment { .. }
        | Core::Assign { .. }
        | Core::Temporary { .. }
        | Core::Call { .. }
        | Core::VirtualCall { .. }
        | Core::PointerCall { .. }
        | Core::New { .. }
        | Core::NewArray { .. }
        | Core::Delete { .. }
        | Core::DeleteArray { .. }
        | Core::Build { .. }
        | Core::Copy { .. }
        | Core::Each { .. }
        | Core::List { .. }
        | Core::Characters { .. }
        | Core::Bind { .. }
        | Core::Zeros { .. }
        | Core::Blank { .. }
        | Core::Once { .. }
        | Core::Parts { .. } => Ok(()),
    }
}

/// Writes statements in order, in the scope at hand.
#[cycle(statements)]
pub fn statements(unit: &CoreUnit, all: &[Core], ways: Ways, b: &mut Body) -> Result<(), Memory>
    requires { all_of (tables_of unit.now) (map (are_known (tables_of unit.now)) all.now) ≡ true }
    ensures { OnOk result (b.new ≡ spec.in_order (map (step unit.now.types) all.now) ways b.old) }
{
    for s in all {
        statement(unit, s, ways, b)?;
    }
    Ok(())
}

/// Writes the statement behind `else`, if there is one (6.4.1). What it declares by itself ends with the scope around the `if` (6.5.3).
#[cycle(statements)]
fn otherwise(
    unit: &CoreUnit,
    s: &Option<Boxed<Core>>,
    ways: Ways,
    b: &mut Body,
) -> Result<(), Memory>
    requires { maybe_of (tables_of unit.now) (option_map (are_known (tables_of unit.now)) s.now) ≡ true }
    ensures { OnOk result (b.new ≡ spec.or_nothing (option_map (step unit.now.types) s.now) ways b.old) }
{
    match s {
        None => Ok(()),
        Some(s) => statement(unit, s.get(), ways, b),
    }
}

/// Writes a switch behind its value, and the switch before it that declares what a label passes (6.4.2, 6.7).
#[cycle(statements)]
fn selection(
    unit: &CoreUnit,
    all: &[Core],
    operand: &Core,
    ways: Ways,
    b: &mut Body,
) -> Result<(), Memory>
    requires operand { are_known (tables_of unit.now) operand.now ≡ true }
    requires body { all_of (tables_of unit.now) (map (are_known (tables_of unit.now)) all.now) ≡ true }
    ensures { OnOk result (b.new ≡ spec.selection (step unit.now.types operand.now) (map (step unit.now.types) all.now) ways b.old) }
{
    let n = given(unit, operand, b)?;
    selected(unit, all, n, b)?;
    let before = b.begin();
    cases(unit, all, ways, b)?;
    b.switch(n, before)
}

/// Writes the statements of a switch, in a scope of their own (6.4.2).
#[cycle(statements)]
fn cases(unit: &CoreUnit, all: &[Core], ways: Ways, b: &mut Body) -> Result<(), Memory>
    requires { all_of (tables_of unit.now) (map (are_known (tables_of unit.now)) all.now) ≡ true }
    ensures { OnOk result (b.new ≡ spec.cases (map (step unit.now.types) all.now) ways b.old) }
{
    let mark = b.scope.len();
    let inner = Ways {
        breaks: mark,
        continues: ways.continues,
    };
    statements(unit, all, inner, b)?;
    b.close(mark)
}

/// Writes the body of a turn, in a scope of its own (6.5).
#[cycle(statements)]
fn turn(unit: &CoreUnit, s: &Core, b: &mut Body) -> Result<(), Memory>
    requires { are_known (tables_of unit.now) s.now ≡ true }
    ensures { OnOk result (b.new ≡ spec.turn (step unit.now.types s.now) b.old) }
{
    let mark = b.scope.len();
    let inside = Ways {
        breaks: mark,
        continues: mark,
    };
    statement(unit, s, inside, b)?;
    b.close(mark)
}

/// Writes a loop: its condition within, and what is done before each further turn (6.5).
#[cycle(statements)]
fn looped(
    unit: &CoreUnit,
    body: &Core,
    form: LoopForm,
    condition: &Option<Boxed<Core>>,
    further: &Option<Boxed<Core>>,
    b: &mut Body,
) -> Result<(), Memory>
    requires body { are_known (tables_of unit.now) body.now ≡ true }
    requires condition { maybe_of (tables_of unit.now) (option_map (are_known (tables_of unit.now)) condition.now) ≡ true }
    requires next { maybe_of (tables_of unit.now) (option_map (are_known (tables_of unit.now)) further.now) ≡ true }
    ensures { OnOk result (b.new ≡ spec.loop form (option_map (step unit.now.types) condition.now) (option_map (step unit.now.types) further.now) (step unit.now.types body.now) b.old) }
{
    let before = b.begin();
    held(unit, condition, b)?;
    let test = b.begin();
    stepped(unit, further, b)?;
    let next = b.begin();
    repeated(unit, body, form, Around { before, test, next }, b)
}

/// What stands around the body of a loop: the statements before it, its test, and what is done before each further turn.
#[derive(Drop)]
struct Around {
    before: Items<Plain>,
    test: Items<Plain>,
    next: Items<Plain>,
}

/// Writes a loop by its form (6.5).
#[cycle(statements)]
fn repeated(
    unit: &CoreUnit,
    body: &Core,
    form: LoopForm,
    around: Around,
    b: &mut Body,
) -> Result<(), Memory>
    requires { are_known (tables_of unit.now) body.now ≡ true }
    ensures { OnOk result (b.new ≡ spec.repeated form around.before around.test around.next (step unit.now.types body.now) b.old) }
{
    let Around { before, test, next } = around;
    match form {
        LoopForm::While | LoopForm::For => {
            b.resume(test);
            turn(unit, body, b)?;
            b.turn(before, next)
        }
        LoopForm::Do => {
            turn(unit, body, b)?;
            b.turn(before, test)
        }
    }
}

/// Writes the test of a loop, which is left where its condition doesn't hold.
fn held(unit: &CoreUnit, condition: &Option<Boxed<Core>>, b: &mut Body) -> Result<(), Memory>
    requires { maybe_of (tables_of unit.now) (option_map (are_known (tables_of unit.now)) condition.now) ≡ true }
    ensures { OnOk result (b.new ≡ spec.held (option_map (step unit.now.types) condition.now) b.old) }
{
    match condition {
        None => Ok(()),
        Some(condition) => {
            let register = tested(unit, condition.get(), b)?;
            let mut no = Items::new(b.writing.alloc);
            no.push(Plain::Break)?;
            let yes = Items::new(b.writing.alloc);
            b.put(Plain::If { register, yes, no })
        }
    }
}

/// Writes what is done before each further turn, if there is something.
fn stepped(unit: &CoreUnit, e: &Option<Boxed<Core>>, b: &mut Body) -> Result<(), Memory>
    requires { maybe_of (tables_of unit.now) (option_map (are_known (tables_of unit.now)) e.now) ≡ true }
    ensures { OnOk result (b.new ≡ spec.stepped (option_map (step unit.now.types) e.now) b.old) }
{
    match e {
        None => Ok(()),
        Some(e) => full(unit, e.get(), b),
    }
}

/// Writes `return` behind the ends of all that is open (6.6.3).
fn returned(unit: &CoreUnit, e: &Option<Boxed<Core>>, b: &mut Body) -> Result<(), Memory>
    requires { maybe_of (tables_of unit.now) (option_map (are_known (tables_of unit.now)) e.now) ≡ true }
    ensures { OnOk result (b.new ≡ spec.returned (option_map (step unit.now.types) e.now) b.old) }
{
    match e {
        None => {
            b.leave(0)?;
            b.put(Plain::Return { register: None })
        }
        Some(e) => {
            let register = given(unit, e.get(), b)?;
            b.leave(0)?;
            b.put(Plain::Return {
                register: Some(register),
            })
        }
    }
}
