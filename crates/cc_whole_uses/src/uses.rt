ghost use Rattle.std.specs.Prelude.{◌≡◌, ◌++◌, map, option_map, OnOk};
ghost use Rattle.cc_whole.specs.Plain.{place_of, expression_of, callee_of, statement_of, body_of, else_of, in_order, switch_item_of, switch_in_order, call as its_call};
ghost use Rattle.cc_whole.specs.Uses.{local_names};
ghost use Rattle.cc_whole.specs.Uses as spec;
ghost use Rattle.cc_whole_uses.specs.Told.{told};

use crate::expressions::{in_arguments, in_callee, in_expression, in_given, in_place, in_target};
use cc_whole::{CBody, CCallee, CExpression, CLocal, CPlace, CStatement, CSwitchItem};
use cf_base::{Boxed, Items, Memory};
use cf_name_list::Names;

/// What a call uses: its target, what is called, and its arguments.
fn in_call<'a>(
    place: &'a Option<CPlace>,
    callee: &'a CCallee,
    arguments: &'a [CExpression],
    hidden: &Names<'_>,
    out: &mut Vec<&'a [u8]>,
) -> Result<(), Memory>
    ensures { OnOk result (told out.new.items ≡ told out.old.items
        ++ spec.uses_of_statement (its_call (option_map place_of place.now) (callee_of callee.now) (map expression_of arguments.now)) hidden.now) }
{
    in_target(place, hidden, out)?;
    in_callee(callee, hidden, out)?;
    in_arguments(arguments, hidden, out)
}

/// What a statement uses. What is hidden stays.
#[cycle(uses)]
fn in_statement<'a>(
    statement: &'a CStatement,
    hidden: &mut Names<'a>,
    out: &mut Vec<&'a [u8]>,
) -> Result<(), Memory>
    ensures made { OnOk result (told out.new.items ≡ told out.old.items ++ spec.uses_of_statement (statement_of statement.now) hidden.old) }
    ensures kept { OnOk result (hidden.new ≡ hidden.old) }
{
    match statement {
        CStatement::Assign(place, e) => {
            in_place(place, hidden, out)?;
            in_expression(e.get(), hidden, out)
        }
        CStatement::Call(place, callee, arguments) => {
            in_call(place, callee, arguments.as_slice(), hidden, out)
        }
        CStatement::Block(body) => in_body(body.get(), hidden, out),
        CStatement::Break => Ok(()),
        CStatement::Continue => Ok(()),
        CStatement::If(e, body, other) => {
            in_expression(e.get(), hidden, out)?;
            in_body(body.get(), hidden, out)?;
            match other {
                None => Ok(()),
                Some(other) => in_body(other.get(), hidden, out),
            }
        }
        CStatement::Loop(body) => in_body(body.get(), hidden, out),
        CStatement::Switch(e, items) => {
            in_expression(e.get(), hidden, out)?;
            in_switch(items, hidden, out)
        }
        CStatement::Return(e) => in_given(e, hidden, out),
    }
}

/// Puts the names of locals in front of others, in their order.
fn hide_locals<'a>(hidden: &mut Names<'a>, locals: &'a [CLocal]) -> Result<(), Memory>
    ensures { OnOk result (hidden.new ≡ local_names locals.now ++ hidden.old) }
{
    let mut left = locals.len();
    while left > 0 {
        left -= 1;
        let local = &locals[left];
        hidden.add(local.name.as_slice())?;
    }
    Ok(())
}

/// What a body uses, whose locals are hidden inside.
#[cycle(uses)]
pub(crate) fn in_body<'a>(
    body: &'a CBody,
    hidden: &mut Names<'a>,
    out: &mut Vec<&'a [u8]>,
) -> Result<(), Memory>
    ensures made { OnOk result (told out.new.items ≡ told out.old.items ++ spec.uses_of_body (body_of body.now) hidden.old) }
    ensures kept { OnOk result (hidden.new ≡ hidden.old) }
{
    let outside = hidden.len();
    hide_locals(hidden, body.locals.as_slice())?;
    in_statements(&body.statements, hidden, out)?;
    hidden.cut(outside);
    Ok(())
}

/// What statements use, in order.
#[cycle(uses)]
fn in_statements<'a>(
    all: &'a Items<CStatement>,
    hidden: &mut Names<'a>,
    out: &mut Vec<&'a [u8]>,
) -> Result<(), Memory>
    ensures made { OnOk result (told out.new.items ≡ told out.old.items ++ spec.uses_of_statements (in_order (map statement_of all.now)) hidden.old) }
    ensures kept { OnOk result (hidden.new ≡ hidden.old) }
{
    for statement in all.as_slice() {
        in_statement(statement, hidden, out)?;
    }
    Ok(())
}

/// What stands in the braces of a `switch`.
#[cycle(uses)]
fn in_switch<'a>(
    all: &'a Items<CSwitchItem>,
    hidden: &mut Names<'a>,
    out: &mut Vec<&'a [u8]>,
) -> Result<(), Memory>
    ensures made { OnOk result (told out.new.items ≡ told out.old.items ++ spec.uses_of_switch (switch_in_order (map switch_item_of all.now)) hidden.old) }
    ensures kept { OnOk result (hidden.new ≡ hidden.old) }
{
    for item in all.as_slice() {
        if let CSwitchItem::Statement(statement) = item {
            in_statement(statement, hidden, out)?;
        }
    }
    Ok(())
}
