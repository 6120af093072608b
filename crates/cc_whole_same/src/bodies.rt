ghost use Rattle.std.specs.Prelude.{◌≡◌, ◌↔◌, IsTrue};

use crate::expressions::{
    same_callee, same_expression, same_expressions, same_given, same_place, same_target,
};
use crate::lists::{same_constant, same_locals};
use cc_whole::{CBody, CStatement, CSwitchItem};
use cf_base::{Boxed, Items};

#[cycle(bodies)]
fn same_statement(a: &CStatement, b: &CStatement) -> bool
    ensures { IsTrue result ↔ (a.now ≡ b.now) }
{
    match (a, b) {
        (CStatement::Assign(p, x), CStatement::Assign(q, y)) => {
            same_place(p, q) && same_expression(x.get(), y.get())
        }
        (CStatement::Call(p, c, xs), CStatement::Call(q, d, ys)) => {
            same_target(p, q) && same_callee(c, d) && same_expressions(xs.as_slice(), ys.as_slice())
        }
        (CStatement::Block(x), CStatement::Block(y)) => same_body(x.get(), y.get()),
        (CStatement::Break, CStatement::Break) => true,
        (CStatement::Continue, CStatement::Continue) => true,
        (CStatement::If(e, x, o), CStatement::If(f, y, p)) => {
            same_expression(e.get(), f.get()) && same_body(x.get(), y.get()) && same_else(o, p)
        }
        (CStatement::Loop(x), CStatement::Loop(y)) => same_body(x.get(), y.get()),
        (CStatement::Switch(e, xs), CStatement::Switch(f, ys)) => {
            same_expression(e.get(), f.get()) && same_parts(xs, ys)
        }
        (CStatement::Return(x), CStatement::Return(y)) => same_given(x, y),
        _ => false,
    }
}

#[cycle(bodies)]
fn same_else(a: &Option<Boxed<CBody>>, b: &Option<Boxed<CBody>>) -> bool
    ensures { IsTrue result ↔ (a.now ≡ b.now) }
{
    match (a, b) {
        (None, None) => true,
        (Some(x), Some(y)) => same_body(x.get(), y.get()),
        _ => false,
    }
}

#[cycle(bodies)]
pub(crate) fn same_body(a: &CBody, b: &CBody) -> bool
    ensures { IsTrue result ↔ (a.now ≡ b.now) }
{
    same_locals(a.locals.as_slice(), b.locals.as_slice())
        && same_statements(&a.statements, &b.statements)
}

#[cycle(bodies)]
fn same_statements(a: &Items<CStatement>, b: &Items<CStatement>) -> bool
    ensures { IsTrue result ↔ (a.now ≡ b.now) }
{
    let others = b.as_slice();
    if a.len() != others.len() {
        return false;
    }
    for (index, x) in a.as_slice().iter().enumerate() {
        if !same_statement(x, &others[index]) {
            return false;
        }
    }
    true
}

#[cycle(bodies)]
fn same_parts(a: &Items<CSwitchItem>, b: &Items<CSwitchItem>) -> bool
    ensures { IsTrue result ↔ (a.now ≡ b.now) }
{
    let others = b.as_slice();
    if a.len() != others.len() {
        return false;
    }
    for (index, x) in a.as_slice().iter().enumerate() {
        if !same_part(x, &others[index]) {
            return false;
        }
    }
    true
}

/// A label or statement of a `switch`.
#[cycle(bodies)]
fn same_part(a: &CSwitchItem, b: &CSwitchItem) -> bool
    ensures { IsTrue result ↔ (a.now ≡ b.now) }
{
    match (a, b) {
        (CSwitchItem::Case(c), CSwitchItem::Case(d)) => same_constant(*c, *d),
        (CSwitchItem::Default, CSwitchItem::Default) => true,
        (CSwitchItem::Statement(x), CSwitchItem::Statement(y)) => same_statement(x, y),
        _ => false,
    }
}
