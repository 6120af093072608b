//! The names of locals.

ghost use Rattle.std.specs.Prelude.{◌≡◌, ◌++◌, map, option_map, OnOk};
ghost use Rattle.cc_whole.specs.Plain.{statement_of, body_of, in_order, switch_item_of, switch_in_order};
ghost use Rattle.cc_whole.specs.Uses.{local_names};
ghost use Rattle.cc_whole_link.specs.Placed as spec;
ghost use Rattle.cc_whole_uses.specs.Told.{told};

use cc_whole::{CBody, CLocal, CStatement, CSwitchItem};
use cf_base::{Items, Memory};

/// The locals inside a statement.
#[cycle(inner)]
fn of_statement<'a>(statement: &'a CStatement, out: &mut Vec<&'a [u8]>) -> Result<(), Memory>
    ensures { OnOk result (told out.new.items ≡ told out.old.items ++ spec.locals_of (statement_of statement.now)) }
{
    match statement {
        CStatement::Block(body) => of_body(body.get(), out),
        CStatement::If(_, body, other) => {
            of_body(body.get(), out)?;
            match other {
                None => Ok(()),
                Some(other) => of_body(other.get(), out),
            }
        }
        CStatement::Loop(body) => of_body(body.get(), out),
        CStatement::Switch(_, items) => of_switch(items, out),
        CStatement::Assign(_, _) => Ok(()),
        CStatement::Call(_, _, _) => Ok(()),
        CStatement::Break => Ok(()),
        CStatement::Continue => Ok(()),
        CStatement::Return(_) => Ok(()),
    }
}

/// A body's own locals.
fn own<'a>(locals: &'a [CLocal], out: &mut Vec<&'a [u8]>) -> Result<(), Memory>
    ensures { OnOk result (told out.new.items ≡ told out.old.items ++ local_names locals.now) }
{
    for local in locals {
        out.push(local.name.as_slice())?;
    }
    Ok(())
}

/// A body's own locals, and those inside its statements.
#[cycle(inner)]
pub(crate) fn of_body<'a>(body: &'a CBody, out: &mut Vec<&'a [u8]>) -> Result<(), Memory>
    ensures { OnOk result (told out.new.items ≡ told out.old.items ++ spec.locals_of_body (body_of body.now)) }
{
    own(body.locals.as_slice(), out)?;
    of_statements(&body.statements, out)
}

#[cycle(inner)]
fn of_statements<'a>(all: &'a Items<CStatement>, out: &mut Vec<&'a [u8]>) -> Result<(), Memory>
    ensures { OnOk result (told out.new.items ≡ told out.old.items ++ spec.locals_of_all (in_order (map statement_of all.now))) }
{
    for statement in all.as_slice() {
        of_statement(statement, out)?;
    }
    Ok(())
}

#[cycle(inner)]
fn of_switch<'a>(all: &'a Items<CSwitchItem>, out: &mut Vec<&'a [u8]>) -> Result<(), Memory>
    ensures { OnOk result (told out.new.items ≡ told out.old.items ++ spec.locals_of_switch (switch_in_order (map switch_item_of all.now))) }
{
    for item in all.as_slice() {
        if let CSwitchItem::Statement(statement) = item {
            of_statement(statement, out)?;
        }
    }
    Ok(())
}
