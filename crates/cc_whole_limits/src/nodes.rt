ghost use Rattle.std.specs.Prelude.{◌≡◌, map, option_map};
ghost use Rattle.cc_whole.specs.Plain.{item_of, items_of, statement_of, body_of, else_of, in_order, switch_item_of, switch_in_order};
ghost use Rattle.cc_whole_limits.specs.Nodes as spec;
ghost use Rattle.cc_whole_limits.specs.Sums.{capped_plus};

use crate::expressions::{arguments, callee, expression, given, place, target};
use crate::sums::sum;
use cc_whole::{CBody, CInitialiser, CItem, CStatement, CSwitchItem};
use cf_base::{Boxed, Items};

/// The nodes of a statement.
#[cycle(statements)]
fn statement(s: &CStatement) -> u64
    ensures { result ≡ spec.statement_nodes capped_plus (statement_of s.now) }
{
    match s {
        CStatement::Assign(p, e) => sum(1, sum(place(p), expression(e.get()))),
        CStatement::Call(p, c, es) => sum(
            1,
            sum(target(p), sum(callee(c), arguments(es.as_slice()))),
        ),
        CStatement::Block(b) => sum(1, body(b.get())),
        CStatement::Break => 1,
        CStatement::Continue => 1,
        CStatement::If(e, b, other) => {
            sum(
                1,
                sum(expression(e.get()), sum(body(b.get()), other_body(other))),
            )
        }
        CStatement::Loop(b) => sum(1, body(b.get())),
        CStatement::Switch(e, items) => sum(1, sum(expression(e.get()), switch(items))),
        CStatement::Return(e) => sum(1, given(e)),
    }
}

/// The nodes of an `else`, which may be missing.
#[cycle(statements)]
fn other_body(other: &Option<Boxed<CBody>>) -> u64
    ensures { result ≡ spec.body_nodes capped_plus (else_of (option_map body_of other.now)) }
{
    match other {
        None => 1,
        Some(b) => body(b.get()),
    }
}

/// The nodes of a body.
#[cycle(statements)]
pub fn body(b: &CBody) -> u64
    ensures { result ≡ spec.body_nodes capped_plus (body_of b.now) }
{
    sum(1, sum(b.locals.len() as u64, statements(&b.statements)))
}

/// The nodes of statements.
#[cycle(statements)]
fn statements(all: &Items<CStatement>) -> u64
    ensures { result ≡ spec.statements_nodes capped_plus 0 (in_order (map statement_of all.now)) }
{
    let mut count = 0;
    for item in all.as_slice() {
        count = sum(count, statement(item));
    }
    count
}

/// The nodes of what stands in the braces of a `switch`.
#[cycle(statements)]
fn switch(all: &Items<CSwitchItem>) -> u64
    ensures { result ≡ spec.switch_nodes capped_plus 0 (switch_in_order (map switch_item_of all.now)) }
{
    let mut count = 0;
    for item in all.as_slice() {
        count = sum(count, switch_item(item));
    }
    count
}

/// The nodes of a label or a statement of a `switch`.
#[cycle(statements)]
fn switch_item(item: &CSwitchItem) -> u64
    ensures { result ≡ spec.switch_item_nodes capped_plus (switch_item_of item.now) }
{
    match item {
        CSwitchItem::Case(_) => 1,
        CSwitchItem::Default => 1,
        CSwitchItem::Statement(s) => statement(s),
    }
}

/// The nodes of what a variable begins with.
fn start(initialiser: &Option<CInitialiser>) -> u64
    ensures { result ≡ spec.start_nodes initialiser.now }
{
    match initialiser {
        None => 0,
        Some(CInitialiser::Text(_)) => 1,
        Some(CInitialiser::Pairs(pairs)) => pairs.len() as u64,
    }
}

fn item_nodes(item: &CItem) -> u64
    ensures { result ≡ spec.item_nodes capped_plus (item_of item.now) }
{
    match item {
        CItem::Prototype(p) => sum(1, p.parameters.len() as u64),
        CItem::Extern(_, _) => 1,
        CItem::Function(f) => sum(1, sum(f.prototype.parameters.len() as u64, body(&f.body))),
        CItem::Variable(v) => sum(1, start(&v.initialiser)),
    }
}

/// The nodes of items, at most as many as 64 bits tell.
pub fn nodes(items: &[CItem]) -> u64
    ensures { result ≡ spec.items_nodes capped_plus 0 (items_of items.now) }
{
    let mut count = 0;
    for item in items {
        count = sum(count, item_nodes(item));
    }
    count
}
