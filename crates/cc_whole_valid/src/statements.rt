ghost use Rattle.std.specs.Prelude.{◌≡◌, map, option_map, true, OnOk};
ghost use Rattle.cc_whole.specs.Plain.{place_of, expression_of, callee_of, statement_of, body_of, else_of, in_order, switch_item_of, switch_in_order};
ghost use Rattle.cc_whole.specs.Statements as checks;
ghost use Rattle.cc_whole_valid.specs.Checking as spec;
ghost use Rattle.cc_whole_valid.specs.Memory.{known};
ghost use Rattle.cc_whole_valid.specs.Walk.{Walks};

use crate::around::Around;
use crate::calls::called_from;
use crate::constants::label_of;
use crate::expressions::{is_zero, target_from, type_from};
use crate::labels::Labels;
use crate::landmarks::pass;
use crate::locals::{add_locals, locals_from, number_from};
use crate::scope::Scope;
use crate::stop::Stop;
use crate::types::{fits_type, is_integer};
use cc_whole::{CBody, CConstant, CExpression, CStatement, CSwitchItem, CType};
use cf_base::{Boxed, Items};
use std::alloc::Global;

/// Goes past a value that is stored where one of this type is wanted.
#[tactic(auto, unfolding(crate::specs::Checking::assigned_from))]
fn assigned_from(
    names: &Scope<'_>,
    at: &mut usize,
    wanted: CType,
    e: &CExpression,
) -> Result<(), Stop>
    ensures { Walks (spec.assigned_from wanted (expression_of e.now) names.now at.old) result at.new }
{
    let place = *at;
    let t = type_from(names, at, e)?;
    if !fits_type(wanted, t, is_zero(e)) {
        return Err(Stop::Broken { rule: 4, place });
    }
    Ok(())
}

/// Goes past a condition, or the value of a `switch`.
#[tactic(auto, unfolding(crate::specs::Checking::condition_from))]
fn condition_from(names: &Scope<'_>, at: &mut usize, e: &CExpression) -> Result<(), Stop>
    ensures { Walks (spec.condition_from (expression_of e.now) names.now at.old) result at.new }
{
    let place = *at;
    let t = type_from(names, at, e)?;
    if !is_integer(t) {
        return Err(Stop::Broken { rule: 3, place });
    }
    Ok(())
}

fn fits_given(wanted: Option<CType>, t: CType, zero: bool) -> bool
    ensures { result ≡ checks.fits_given wanted t zero }
{
    match wanted {
        None => false,
        Some(wanted) => fits_type(wanted, t, zero),
    }
}

/// Goes past the value that the `return` at this place gives.
#[tactic(auto, unfolding(crate::specs::Checking::value_from))]
fn value_from(
    names: &Scope<'_>,
    at: &mut usize,
    place: usize,
    around: Around,
    e: &CExpression,
) -> Result<(), Stop>
    ensures { Walks (spec.value_from place (expression_of e.now) (known names.now around) at.old) result at.new }
{
    let t = type_from(names, at, e)?;
    if !fits_given(around.result, t, is_zero(e)) {
        return Err(Stop::Broken { rule: 6, place });
    }
    Ok(())
}

/// Goes past `return` and the value that is given, exactly where the function has a result.
#[tactic(auto, unfolding(crate::specs::Checking::given_from))]
fn given_from(
    names: &Scope<'_>,
    at: &mut usize,
    around: Around,
    e: &Option<Boxed<CExpression>>,
) -> Result<(), Stop>
    ensures { Walks (spec.given_from (option_map expression_of e.now) (known names.now around) at.old) result at.new }
{
    let place = *at;
    match e {
        None => {
            if !around.result.is_none() {
                return Err(Stop::Broken { rule: 6, place });
            }
            pass(at, 1)
        }
        Some(e) => {
            if !around.result.is_some() {
                return Err(Stop::Broken { rule: 6, place });
            }
            pass(at, 1)?;
            value_from(names, at, place, around, e.get())
        }
    }
}

/// Goes past a word that may stand here, as `break` in a loop.
#[tactic(auto, unfolding(crate::specs::Checking::word_from))]
fn word_from(at: &mut usize, may_stand: bool) -> Result<(), Stop>
    ensures { Walks (spec.word_from may_stand at.old) result at.new }
{
    if !may_stand {
        return Err(Stop::Broken {
            rule: 7,
            place: *at,
        });
    }
    pass(at, 1)
}

/// Goes past a statement, up to its first fault. Without one the names in scope stay.
#[cycle(statements)]
fn checked_from<'a>(
    alloc: Global,
    names: &mut Scope<'a>,
    at: &mut usize,
    around: Around,
    statement: &'a CStatement,
) -> Result<(), Stop>
    ensures walk { Walks (spec.checked_from (statement_of statement.now) (known names.old around) at.old) result at.new }
    ensures names { OnOk result (names.new ≡ names.old) }
{
    match statement {
        CStatement::Assign(place, e) => {
            let wanted = target_from(names, at, place)?;
            assigned_from(names, at, wanted, e.get())
        }
        CStatement::Call(place, callee, arguments) => {
            called_from(names, at, around, place, callee, arguments.as_slice())
        }
        CStatement::Block(body) => body_from(alloc, names, at, around, body.get()),
        CStatement::Break => word_from(at, around.may_break),
        CStatement::Continue => word_from(at, around.in_loop),
        CStatement::If(e, body, other) => {
            pass(at, 1)?;
            condition_from(names, at, e.get())?;
            body_from(alloc, names, at, around, body.get())?;
            else_from(alloc, names, at, around, other)
        }
        CStatement::Loop(body) => {
            pass(at, 1)?;
            body_from(alloc, names, at, in_a_loop(around), body.get())
        }
        CStatement::Switch(e, items) => {
            pass(at, 1)?;
            condition_from(names, at, e.get())?;
            switch_from(alloc, names, at, in_a_switch(around), items)
        }
        CStatement::Return(e) => given_from(names, at, around, e),
    }
}

fn in_a_loop(around: Around) -> Around
    ensures { result ≡ record around { in_loop = true; may_break = true } }
{
    Around {
        in_loop: true,
        may_break: true,
        ..around
    }
}

fn in_a_switch(around: Around) -> Around
    ensures { result ≡ record around { may_break = true } }
{
    Around {
        may_break: true,
        ..around
    }
}

/// The same of an `else`, which may be missing.
#[cycle(statements)]
fn else_from<'a>(
    alloc: Global,
    names: &mut Scope<'a>,
    at: &mut usize,
    around: Around,
    other: &'a Option<Boxed<CBody>>,
) -> Result<(), Stop>
    ensures walk { Walks (spec.body_from (else_of (option_map body_of other.now)) (known names.old around) at.old) result at.new }
    ensures names { OnOk result (names.new ≡ names.old) }
{
    match other {
        None => Ok(()),
        Some(body) => body_from(alloc, names, at, around, body.get()),
    }
}

/// The same of a body, whose locals are in scope inside.
#[cycle(statements)]
pub fn body_from<'a>(
    alloc: Global,
    names: &mut Scope<'a>,
    at: &mut usize,
    around: Around,
    body: &'a CBody,
) -> Result<(), Stop>
    ensures walk { Walks (spec.body_from (body_of body.now) (known names.old around) at.old) result at.new }
    ensures names { OnOk result (names.new ≡ names.old) }
{
    locals_from(alloc, at, body.locals.as_slice())?;
    let outside = names.len();
    add_locals(names, body.locals.as_slice())?;
    statements_from(alloc, names, at, around, &body.statements)?;
    names.cut(outside);
    Ok(())
}

/// The same of statements in order.
#[cycle(statements)]
fn statements_from<'a>(
    alloc: Global,
    names: &mut Scope<'a>,
    at: &mut usize,
    around: Around,
    all: &'a Items<CStatement>,
) -> Result<(), Stop>
    ensures walk { Walks (spec.statements_from (in_order (map statement_of all.now)) (known names.old around) at.old) result at.new }
    ensures names { OnOk result (names.new ≡ names.old) }
{
    for statement in all.as_slice() {
        checked_from(alloc, names, at, around, statement)?;
    }
    Ok(())
}

/// The same of what stands in the braces of a `switch`.
#[cycle(statements)]
fn switch_from<'a>(
    alloc: Global,
    names: &mut Scope<'a>,
    at: &mut usize,
    around: Around,
    all: &'a Items<CSwitchItem>,
) -> Result<(), Stop>
    ensures walk { Walks (spec.switch_from (switch_in_order (map switch_item_of all.now)) checks.no_labels (known names.old around) at.old) result at.new }
    ensures names { OnOk result (names.new ≡ names.old) }
{
    let mut labels = Labels::new(alloc);
    for item in all.as_slice() {
        switch_item_from(alloc, names, at, around, &mut labels, item)?;
    }
    Ok(())
}

/// Goes past a case that differs from those so far, among which it is afterwards.
#[tactic(auto, unfolding(crate::specs::Checking::case_from))]
fn case_from(at: &mut usize, labels: &mut Labels, c: CConstant) -> Result<(), Stop>
    ensures walk { Walks (spec.case_from c labels.old at.old) result at.new }
    ensures labels { OnOk result (labels.new ≡ spec.with_case c labels.old) }
{
    if labels.has_case(label_of(c)) {
        return Err(Stop::Broken {
            rule: 8,
            place: *at,
        });
    }
    labels.add_case(label_of(c))?;
    pass(at, 1)?;
    number_from(at, c)
}

/// The same of `default`.
#[tactic(auto, unfolding(crate::specs::Checking::default_from))]
fn default_from(at: &mut usize, labels: &mut Labels) -> Result<(), Stop>
    ensures walk { Walks (spec.default_from labels.old at.old) result at.new }
    ensures labels { OnOk result (labels.new ≡ spec.with_default labels.old) }
{
    if labels.has_default() {
        return Err(Stop::Broken {
            rule: 8,
            place: *at,
        });
    }
    labels.add_default();
    pass(at, 1)
}

/// The same of one label or statement of a `switch`.
#[cycle(statements)]
fn switch_item_from<'a>(
    alloc: Global,
    names: &mut Scope<'a>,
    at: &mut usize,
    around: Around,
    labels: &mut Labels,
    item: &'a CSwitchItem,
) -> Result<(), Stop>
    ensures walk { Walks (spec.switch_item_from (switch_item_of item.now) labels.old (known names.old around) at.old) result at.new }
    ensures names { OnOk result (names.new ≡ names.old) }
    ensures labels { OnOk result (labels.new ≡ spec.labels_after (switch_item_of item.now) labels.old) }
{
    match item {
        CSwitchItem::Case(c) => case_from(at, labels, *c),
        CSwitchItem::Default => default_from(at, labels),
        CSwitchItem::Statement(s) => checked_from(alloc, names, at, around, s),
    }
}
