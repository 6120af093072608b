ghost use Rattle.std.specs.Prelude.{◌≡◌, nat_lt, map, option_map};
ghost use Rattle.cc_whole.specs.Plain.{statement_of, body_of, else_of, in_order, switch_item_of, switch_in_order, item_of, items_of};
ghost use Rattle.cc_whole.specs.Spellable as spec;
ghost use Rattle.cc_whole_valid.specs.CheckingItems as checking;

use cc_whole::{
    CBody, CInitialiser, CItem, CLocal, CParameter, CPrototype, CStatement, CSwitchItem,
};
use cc_whole_tokens::is_name;
use cf_base::{Boxed, Items};

fn good_locals(locals: &[CLocal]) -> bool
    ensures { result ≡ spec.good_locals locals.now }
{
    locals.iter().all(|local| is_name(local.name.as_slice()))
}

/// Whether the names of a statement's locals are names.
#[cycle(spellable)]
fn spellable(statement: &CStatement) -> bool
    ensures { result ≡ spec.spellable (statement_of statement.now) }
{
    match statement {
        CStatement::Assign(_, _) => true,
        CStatement::Call(_, _, _) => true,
        CStatement::Block(body) => spellable_body(body.get()),
        CStatement::Break => true,
        CStatement::Continue => true,
        CStatement::If(_, body, other) => spellable_body(body.get()) && spellable_else(other),
        CStatement::Loop(body) => spellable_body(body.get()),
        CStatement::Switch(_, items) => spellable_switch(items),
        CStatement::Return(_) => true,
    }
}

#[cycle(spellable)]
fn spellable_else(other: &Option<Boxed<CBody>>) -> bool
    ensures { result ≡ spec.spellable_body (else_of (option_map body_of other.now)) }
{
    match other {
        None => true,
        Some(body) => spellable_body(body.get()),
    }
}

/// The same of a body and its own locals.
#[cycle(spellable)]
pub fn spellable_body(body: &CBody) -> bool
    ensures { result ≡ spec.spellable_body (body_of body.now) }
{
    good_locals(body.locals.as_slice()) && spellable_statements(&body.statements)
}

#[cycle(spellable)]
fn spellable_statements(all: &Items<CStatement>) -> bool
    ensures { result ≡ spec.spellable_statements (in_order (map statement_of all.now)) }
{
    for statement in all.as_slice() {
        if !spellable(statement) {
            return false;
        }
    }
    true
}

#[cycle(spellable)]
fn spellable_switch(all: &Items<CSwitchItem>) -> bool
    ensures { result ≡ spec.spellable_switch (switch_in_order (map switch_item_of all.now)) }
{
    for item in all.as_slice() {
        if !spellable_switch_item(item) {
            return false;
        }
    }
    true
}

#[cycle(spellable)]
fn spellable_switch_item(item: &CSwitchItem) -> bool
    ensures { result ≡ checking.spellable_switch_item (switch_item_of item.now) }
{
    match item {
        CSwitchItem::Case(_) => true,
        CSwitchItem::Default => true,
        CSwitchItem::Statement(statement) => spellable(statement),
    }
}

fn good_parameters(parameters: &[CParameter]) -> bool
    ensures { result ≡ checking.good_parameters parameters.now }
{
    parameters
        .iter()
        .all(|parameter| is_name(parameter.name.as_slice()))
}

fn spellable_prototype(prototype: &CPrototype) -> bool
    ensures { result ≡ spec.spellable_prototype prototype.now }
{
    is_name(prototype.name.as_slice()) && good_parameters(prototype.parameters.as_slice())
}

/// Whether it is a byte, which its type says.
fn is_byte(byte: u8) -> bool
    ensures { result ≡ nat_lt byte 256 }
{
    let _ = byte;
    true
}

fn are_bytes(bytes: &[u8]) -> bool
    ensures { result ≡ checking.are_bytes bytes.now }
{
    bytes.iter().all(|byte| is_byte(*byte))
}

fn spellable_start(start: &Option<CInitialiser>) -> bool
    ensures { result ≡ spec.spellable_start start.now }
{
    match start {
        None => true,
        Some(CInitialiser::Text(bytes)) => are_bytes(bytes.as_slice()),
        Some(CInitialiser::Pairs(pairs)) => !pairs.is_empty(),
    }
}

/// Whether an item has a text.
fn spellable_item(item: &CItem) -> bool
    ensures { result ≡ spec.spellable_item (item_of item.now) }
{
    match item {
        CItem::Prototype(p) => spellable_prototype(p),
        CItem::Extern(_, name) => is_name(name.as_slice()),
        CItem::Function(f) => spellable_prototype(&f.prototype) && spellable_body(&f.body),
        CItem::Variable(v) => is_name(v.name.as_slice()) && spellable_start(&v.initialiser),
    }
}

/// Whether items have a text.
pub fn spellable_items(items: &[CItem]) -> bool
    ensures { result ≡ spec.spellable_items (items_of items.now) }
{
    for item in items {
        if !spellable_item(item) {
            return false;
        }
    }
    true
}
