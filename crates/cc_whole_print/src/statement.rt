//! Statements and bodies.

ghost use Rattle.std.specs.Prelude.{◌≡◌, ◌++◌, OnOk, map};
ghost use Rattle.std.specs.List.{concat};
ghost use Rattle.cc_whole_print.specs.Types.{local_text};
ghost use Rattle.cc_whole_print.specs.Statements.{alone_text, assignment_text, body_text, call_text, callee_text, case_text, default_text, forever_text, head_text, return_text, statement_text, switch_item_text, target_text, value_text};

use crate::expression::{arguments, in_brackets, place, whole};
use crate::lines::{put, put_constant, put_spaced};
use crate::types::{local, signature};
use cc_whole::{CBody, CCallee, CConstant, CExpression, CLocal, CPlace, CStatement, CSwitchItem};
use cc_whole_tokens::Mark;
use cf_base::{Boxed, Items, Memory};

fn locals(out: &mut Vec<u8>, all: &Items<CLocal>) -> Result<(), Memory>
    ensures { OnOk result (out.new.items ≡ out.old.items ++ concat (map local_text all.now)) }
{
    for one in all.as_slice() {
        local(out, one)?;
    }
    Ok(())
}

fn target(out: &mut Vec<u8>, to: &Option<CPlace>) -> Result<(), Memory>
    ensures { OnOk result (out.new.items ≡ out.old.items ++ target_text to.now) }
{
    match to {
        None => Ok(()),
        Some(to) => {
            place(out, to)?;
            put(out, Mark::Assign)
        }
    }
}

fn callee(out: &mut Vec<u8>, called: &CCallee) -> Result<(), Memory>
    ensures { OnOk result (out.new.items ≡ out.old.items ++ callee_text called.now) }
{
    match called {
        CCallee::Name(name) => put_spaced(out, name.as_slice()),
        CCallee::Pointer(ty, pointer) => {
            put(out, Mark::LeftParen)?;
            signature(out, ty)?;
            in_brackets(out, pointer.get())?;
            put(out, Mark::RightParen)
        }
    }
}

fn call(
    out: &mut Vec<u8>,
    to: &Option<CPlace>,
    called: &CCallee,
    all: &Items<CExpression>,
) -> Result<(), Memory>
    ensures { OnOk result (out.new.items ≡ out.old.items ++ call_text to.now called.now all.now) }
{
    target(out, to)?;
    callee(out, called)?;
    arguments(out, all)?;
    put(out, Mark::Semicolon)
}

fn value(out: &mut Vec<u8>, expr: &Option<Boxed<CExpression>>) -> Result<(), Memory>
    ensures { OnOk result (out.new.items ≡ out.old.items ++ value_text expr.now) }
{
    match expr {
        None => Ok(()),
        Some(expr) => whole(out, expr.get()),
    }
}

fn assignment(out: &mut Vec<u8>, to: &CPlace, expr: &CExpression) -> Result<(), Memory>
    ensures { OnOk result (out.new.items ≡ out.old.items ++ assignment_text to.now expr.now) }
{
    place(out, to)?;
    put(out, Mark::Assign)?;
    whole(out, expr)?;
    put(out, Mark::Semicolon)
}

/// A word and a semicolon.
fn alone(out: &mut Vec<u8>, word: Mark) -> Result<(), Memory>
    ensures { OnOk result (out.new.items ≡ out.old.items ++ alone_text word) }
{
    put(out, word)?;
    put(out, Mark::Semicolon)
}

/// A word and an expression in brackets.
fn head(out: &mut Vec<u8>, word: Mark, expr: &CExpression) -> Result<(), Memory>
    ensures { OnOk result (out.new.items ≡ out.old.items ++ head_text word expr.now) }
{
    put(out, word)?;
    in_brackets(out, expr)
}

fn forever(out: &mut Vec<u8>) -> Result<(), Memory>
    ensures { OnOk result (out.new.items ≡ out.old.items ++ forever_text) }
{
    put(out, Mark::For)?;
    put(out, Mark::LeftParen)?;
    put(out, Mark::Semicolon)?;
    put(out, Mark::Semicolon)?;
    put(out, Mark::RightParen)
}

fn returned(out: &mut Vec<u8>, expr: &Option<Boxed<CExpression>>) -> Result<(), Memory>
    ensures { OnOk result (out.new.items ≡ out.old.items ++ return_text expr.now) }
{
    put(out, Mark::Return)?;
    value(out, expr)?;
    put(out, Mark::Semicolon)
}

fn case(out: &mut Vec<u8>, value: CConstant) -> Result<(), Memory>
    ensures { OnOk result (out.new.items ≡ out.old.items ++ case_text value) }
{
    put(out, Mark::Case)?;
    put_constant(out, value)?;
    put(out, Mark::Colon)
}

fn otherwise(out: &mut Vec<u8>) -> Result<(), Memory>
    ensures { OnOk result (out.new.items ≡ out.old.items ++ default_text) }
{
    put(out, Mark::Default)?;
    put(out, Mark::Colon)
}

#[cycle(body)]
fn statement(out: &mut Vec<u8>, one: &CStatement) -> Result<(), Memory>
    ensures { OnOk result (out.new.items ≡ out.old.items ++ statement_text one.now) }
{
    match one {
        CStatement::Assign(to, expr) => assignment(out, to, expr.get()),
        CStatement::Call(to, called, all) => call(out, to, called, all),
        CStatement::Block(inner) => body(out, inner.get()),
        CStatement::Break => alone(out, Mark::Break),
        CStatement::Continue => alone(out, Mark::Continue),
        CStatement::If(expr, then, otherwise) => {
            head(out, Mark::If, expr.get())?;
            body(out, then.get())?;
            match otherwise {
                None => Ok(()),
                Some(otherwise) => {
                    put(out, Mark::Else)?;
                    body(out, otherwise.get())
                }
            }
        }
        CStatement::Loop(inner) => {
            forever(out)?;
            body(out, inner.get())
        }
        CStatement::Switch(expr, items) => {
            head(out, Mark::Switch, expr.get())?;
            put(out, Mark::LeftBrace)?;
            switch_items(out, items)?;
            put(out, Mark::RightBrace)
        }
        CStatement::Return(expr) => returned(out, expr),
    }
}

#[cycle(body)]
fn switch_item(out: &mut Vec<u8>, one: &CSwitchItem) -> Result<(), Memory>
    ensures { OnOk result (out.new.items ≡ out.old.items ++ switch_item_text one.now) }
{
    match one {
        CSwitchItem::Case(value) => case(out, *value),
        CSwitchItem::Default => otherwise(out),
        CSwitchItem::Statement(inner) => statement(out, inner),
    }
}

#[cycle(body)]
fn switch_items(out: &mut Vec<u8>, all: &Items<CSwitchItem>) -> Result<(), Memory>
    ensures { OnOk result (out.new.items ≡ out.old.items ++ concat (map switch_item_text all.now)) }
{
    for one in all.as_slice() {
        switch_item(out, one)?;
    }
    Ok(())
}

#[cycle(body)]
fn statements(out: &mut Vec<u8>, all: &Items<CStatement>) -> Result<(), Memory>
    ensures { OnOk result (out.new.items ≡ out.old.items ++ concat (map statement_text all.now)) }
{
    for one in all.as_slice() {
        statement(out, one)?;
    }
    Ok(())
}

#[cycle(body)]
pub fn body(out: &mut Vec<u8>, body: &CBody) -> Result<(), Memory>
    ensures { OnOk result (out.new.items ≡ out.old.items ++ body_text body.now) }
{
    put(out, Mark::LeftBrace)?;
    locals(out, &body.locals)?;
    statements(out, &body.statements)?;
    put(out, Mark::RightBrace)
}
