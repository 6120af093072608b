ghost use Rattle.std.specs.Prelude.{◌≡◌, ◌++◌, map, option_map, true, IfOk, OnOk};
ghost use Rattle.cc_whole.specs.Plain.{place_of, expression_of, statement_of, body_of, else_of, in_order, switch_item_of, switch_in_order};
ghost use Rattle.cc_whole.specs.Uses.{local_names};
ghost use Rattle.cc_whole_program.specs.Uses as spec;

use crate::expressions::{good, good_called, good_given, good_place};
use cc_whole::{CBody, CLocal, CStatement, CSwitchItem};
use cf_base::{Boxed, Items, Memory};
use cf_name_list::Names;

/// Whether each name that a statement uses is defined, a library function, or hidden. Where it is so, what is hidden stays.
#[cycle(statements)]
fn good_statement<'a>(
    defined: &Names<'_>,
    hidden: &mut Names<'a>,
    statement: &'a CStatement,
) -> Result<bool, Memory>
    ensures good { IfOk result (λ ok. ok ≡ spec.good_statement (statement_of statement.now) defined.now hidden.old) }
    ensures after { IfOk result (λ ok. ok ≡ true → hidden.new ≡ hidden.old) }
{
    match statement {
        CStatement::Assign(place, e) => {
            Ok(good_place(defined, hidden, place) && good(defined, hidden, e.get()))
        }
        CStatement::Call(place, callee, arguments) => Ok(good_called(
            defined,
            hidden,
            place,
            callee,
            arguments.as_slice(),
        )),
        CStatement::Block(body) => good_body(defined, hidden, body.get()),
        CStatement::Break => Ok(true),
        CStatement::Continue => Ok(true),
        CStatement::If(e, body, other) => {
            if !good(defined, hidden, e.get()) {
                return Ok(false);
            }
            if !good_body(defined, hidden, body.get())? {
                return Ok(false);
            }
            good_else(defined, hidden, other)
        }
        CStatement::Loop(body) => good_body(defined, hidden, body.get()),
        CStatement::Switch(e, items) => {
            if !good(defined, hidden, e.get()) {
                return Ok(false);
            }
            good_switch(defined, hidden, items)
        }
        CStatement::Return(e) => Ok(good_given(defined, hidden, e)),
    }
}

/// The same of an `else`, which may be missing.
#[cycle(statements)]
fn good_else<'a>(
    defined: &Names<'_>,
    hidden: &mut Names<'a>,
    other: &'a Option<Boxed<CBody>>,
) -> Result<bool, Memory>
    ensures good { IfOk result (λ ok. ok ≡ spec.good_body (else_of (option_map body_of other.now)) defined.now hidden.old) }
    ensures after { IfOk result (λ ok. ok ≡ true → hidden.new ≡ hidden.old) }
{
    match other {
        None => Ok(true),
        Some(body) => good_body(defined, hidden, body.get()),
    }
}

/// Puts the names of locals in front of others, in their order.
fn hide_locals<'a>(hidden: &mut Names<'a>, locals: &'a [CLocal]) -> Result<(), Memory>
    ensures { OnOk result (hidden.new ≡ local_names locals.now ++ hidden.old) }
{
    let mut left = locals.len();
    while left > 0 {
        left -= 1;
        let local = &locals[left];
        hidden.add(local.name.as_slice())?;
    }
    Ok(())
}

/// The same of a body, whose locals are hidden inside.
#[cycle(statements)]
pub fn good_body<'a>(
    defined: &Names<'_>,
    hidden: &mut Names<'a>,
    body: &'a CBody,
) -> Result<bool, Memory>
    ensures good { IfOk result (λ ok. ok ≡ spec.good_body (body_of body.now) defined.now hidden.old) }
    ensures after { IfOk result (λ ok. ok ≡ true → hidden.new ≡ hidden.old) }
{
    let outside = hidden.len();
    hide_locals(hidden, body.locals.as_slice())?;
    if !good_statements(defined, hidden, &body.statements)? {
        return Ok(false);
    }
    hidden.cut(outside);
    Ok(true)
}

/// The same of statements in order.
#[cycle(statements)]
fn good_statements<'a>(
    defined: &Names<'_>,
    hidden: &mut Names<'a>,
    all: &'a Items<CStatement>,
) -> Result<bool, Memory>
    ensures good { IfOk result (λ ok. ok ≡ spec.good_statements (in_order (map statement_of all.now)) defined.now hidden.old) }
    ensures after { IfOk result (λ ok. ok ≡ true → hidden.new ≡ hidden.old) }
{
    for statement in all.as_slice() {
        if !good_statement(defined, hidden, statement)? {
            return Ok(false);
        }
    }
    Ok(true)
}

/// The same of what stands in the braces of a `switch`.
#[cycle(statements)]
fn good_switch<'a>(
    defined: &Names<'_>,
    hidden: &mut Names<'a>,
    all: &'a Items<CSwitchItem>,
) -> Result<bool, Memory>
    ensures good { IfOk result (λ ok. ok ≡ spec.good_switch (switch_in_order (map switch_item_of all.now)) defined.now hidden.old) }
    ensures after { IfOk result (λ ok. ok ≡ true → hidden.new ≡ hidden.old) }
{
    for item in all.as_slice() {
        if !good_switch_item(defined, hidden, item)? {
            return Ok(false);
        }
    }
    Ok(true)
}

/// The same of one label or statement of a `switch`.
#[cycle(statements)]
fn good_switch_item<'a>(
    defined: &Names<'_>,
    hidden: &mut Names<'a>,
    item: &'a CSwitchItem,
) -> Result<bool, Memory>
    ensures good { IfOk result (λ ok. ok ≡ spec.good_switch_item (switch_item_of item.now) defined.now hidden.old) }
    ensures after { IfOk result (λ ok. ok ≡ true → hidden.new ≡ hidden.old) }
{
    match item {
        CSwitchItem::Case(_) => Ok(true),
        CSwitchItem::Default => Ok(true),
        CSwitchItem::Statement(statement) => good_statement(defined, hidden, statement),
    }
}
