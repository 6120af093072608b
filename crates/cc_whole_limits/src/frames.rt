ghost use Rattle.std.specs.Prelude.{◌≡◌, map, option_map};
ghost use Rattle.cc_whole.specs.Plain.{item_of, items_of, statement_of, body_of, else_of, in_order, switch_item_of, switch_in_order};
ghost use Rattle.cc_whole_limits.specs.Frames as spec;
ghost use Rattle.cc_whole_limits.specs.Sums.{capped_plus};

use crate::sizes::{local_bytes, parameter_bytes};
use crate::sums::{larger, sum};
use cc_whole::{CBody, CItem, CLocal, CParameter, CStatement, CSwitchItem};
use cf_base::{Boxed, Items};

fn parameters_bytes(all: &[CParameter]) -> u64
    ensures { result ≡ spec.parameters_bytes capped_plus 0 all.now }
{
    let mut bytes = 0;
    for item in all {
        bytes = sum(bytes, parameter_bytes(item.ty));
    }
    bytes
}

fn locals_bytes(all: &[CLocal]) -> u64
    ensures { result ≡ spec.locals_bytes capped_plus 0 all.now }
{
    let mut bytes = 0;
    for item in all {
        bytes = sum(bytes, local_bytes(item.ty));
    }
    bytes
}

/// What the bodies in a statement take.
#[cycle(rooms)]
fn room(s: &CStatement) -> u64
    ensures { result ≡ spec.room capped_plus (statement_of s.now) }
{
    match s {
        CStatement::Assign(_, _) => 0,
        CStatement::Call(_, _, _) => 0,
        CStatement::Block(b) => body_room(b.get()),
        CStatement::Break => 0,
        CStatement::Continue => 0,
        CStatement::If(_, b, other) => larger(body_room(b.get()), other_room(other)),
        CStatement::Loop(b) => body_room(b.get()),
        CStatement::Switch(_, items) => switch_room(items),
        CStatement::Return(_) => 0,
    }
}

/// What an `else` takes, which may be missing.
#[cycle(rooms)]
fn other_room(other: &Option<Boxed<CBody>>) -> u64
    ensures { result ≡ spec.body_room capped_plus (else_of (option_map body_of other.now)) }
{
    match other {
        None => 0,
        Some(b) => body_room(b.get()),
    }
}

/// What a body takes.
#[cycle(rooms)]
fn body_room(b: &CBody) -> u64
    ensures { result ≡ spec.body_room capped_plus (body_of b.now) }
{
    sum(
        locals_bytes(b.locals.as_slice()),
        statements_room(&b.statements),
    )
}

/// The most that the bodies in one of these statements take.
#[cycle(rooms)]
fn statements_room(all: &Items<CStatement>) -> u64
    ensures { result ≡ spec.statements_room capped_plus 0 (in_order (map statement_of all.now)) }
{
    let mut most = 0;
    for item in all.as_slice() {
        most = larger(most, room(item));
    }
    most
}

/// The most that the bodies in one statement of a `switch` take.
#[cycle(rooms)]
fn switch_room(all: &Items<CSwitchItem>) -> u64
    ensures { result ≡ spec.switch_room capped_plus 0 (switch_in_order (map switch_item_of all.now)) }
{
    let mut most = 0;
    for item in all.as_slice() {
        most = larger(most, switch_item_room(item));
    }
    most
}

#[cycle(rooms)]
fn switch_item_room(item: &CSwitchItem) -> u64
    ensures { result ≡ spec.switch_item_room capped_plus (switch_item_of item.now) }
{
    match item {
        CSwitchItem::Case(_) => 0,
        CSwitchItem::Default => 0,
        CSwitchItem::Statement(s) => room(s),
    }
}

/// The frame of the function that an item defines, if it does.
fn item_frame(item: &CItem) -> u64
    ensures { result ≡ spec.item_frame capped_plus (item_of item.now) }
{
    match item {
        CItem::Prototype(_) => 0,
        CItem::Extern(_, _) => 0,
        CItem::Function(f) => sum(
            parameters_bytes(f.prototype.parameters.as_slice()),
            body_room(&f.body),
        ),
        CItem::Variable(_) => 0,
    }
}

/// The greatest frame of the functions that items define, at most as many bytes as 64 bits tell.
pub fn greatest_frame(items: &[CItem]) -> u64
    ensures { result ≡ spec.items_frame capped_plus 0 (items_of items.now) }
{
    let mut most = 0;
    for item in items {
        most = larger(most, item_frame(item));
    }
    most
}
