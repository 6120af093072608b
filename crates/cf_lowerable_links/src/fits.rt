//! Whether items are as lowering asks of what names declare and define.

ghost use Rattle.std.specs.Prelude.{◌≡◌, ◌||◌, nat_lt};
ghost use Rattle.std.specs.List.{list_all};
ghost use Rattle.cc_whole.specs.Plain.{item_of, items_of};
ghost use Rattle.cc_whole.specs.Spellable as spellable;
ghost use Rattle.cf_core.specs.Calls as calls;
ghost use Rattle.cf_lower_program.specs.Names as names;
ghost use Rattle.cf_lowerable_links.specs.Fits as spec;

use crate::entity::{entity_of, name_of};
use crate::letters::{is, may_be_function, may_be_object};
use crate::meanings::Meanings;
use crate::same::{agrees, has_own_type};
use cc_whole::{CInitialiser, CItem, CParameter, CPrototype};
use cc_whole_tokens::is_name;

fn is_library(name: &[u8]) -> bool
    ensures { result ≡ calls.is_library name.now }
{
    is(name, b"putchar") || is(name, b"getchar") || is(name, b"exit")
}

/// Whether actions may name what an item declares.
fn is_well_named(item: &CItem) -> bool
    ensures { result ≡ names.is_well_named (item_of item.now) }
{
    match item {
        CItem::Prototype(head) => {
            is_library(head.name.as_slice()) || may_be_function(head.name.as_slice())
        }
        CItem::Extern(_, name) => may_be_object(name.as_slice()),
        CItem::Function(_) => false,
        CItem::Variable(_) => false,
    }
}

/// Whether a name that has a type of its own has it.
fn has_its_type(item: &CItem) -> bool
    ensures { result ≡ names.has_own_type (item_of item.now) }
{
    has_own_type(name_of(item), entity_of(item))
}

/// Whether an item has the type of the first item of its name.
fn has_one_type(known: &Meanings<'_>, item: &CItem) -> bool
    ensures { result ≡ spec.has_one_type known.now (item_of item.now) }
{
    agrees(known.find(name_of(item)), entity_of(item))
}

fn are_names(parameters: &[CParameter]) -> bool
    ensures { result ≡ spec.are_names parameters.now }
{
    parameters
        .iter()
        .all(|parameter| is_name(parameter.name.as_slice()))
}

fn is_head(head: &CPrototype) -> bool
    ensures { result ≡ spellable.spellable_prototype head.now }
{
    is_name(head.name.as_slice()) && are_names(head.parameters.as_slice())
}

/// Whether it is a byte, which its type says.
fn is_byte(byte: u8) -> bool
    ensures { result ≡ nat_lt byte 256 }
{
    let _ = byte;
    true
}

fn are_bytes(bytes: &[u8]) -> bool
    ensures { result ≡ spec.are_bytes bytes.now }
{
    bytes.iter().all(|byte| is_byte(*byte))
}

fn is_start(start: &Option<CInitialiser>) -> bool
    ensures { result ≡ spellable.spellable_start start.now }
{
    match start {
        None => true,
        Some(CInitialiser::Text(bytes)) => are_bytes(bytes.as_slice()),
        Some(CInitialiser::Pairs(pairs)) => !pairs.is_empty(),
    }
}

/// Whether an item but for its body has a text.
fn is_spelled(item: &CItem) -> bool
    ensures { result ≡ spec.is_spelled (item_of item.now) }
{
    match item {
        CItem::Prototype(head) => is_head(head),
        CItem::Extern(_, name) => is_name(name.as_slice()),
        CItem::Function(function) => is_head(&function.prototype),
        CItem::Variable(variable) => {
            is_name(variable.name.as_slice()) && is_start(&variable.initialiser)
        }
    }
}

/// Whether an item has the type that its name has of its own and the type of the first item of its name, and a text.
fn fits(known: &Meanings<'_>, item: &CItem) -> bool
    ensures { result ≡ spec.fits known.now (item_of item.now) }
{
    has_its_type(item) && (has_one_type(known, item) && is_spelled(item))
}

/// Whether that is so of all items.
pub fn all_fit(known: &Meanings<'_>, items: &[CItem]) -> bool
    ensures { result ≡ list_all (spec.fits known.now) (items_of items.now) }
{
    for item in items {
        if !fits(known, item) {
            return false;
        }
    }
    true
}

/// Whether it is so of an item that an action names, and lowered files may name that.
pub fn named_fits(known: &Meanings<'_>, item: &CItem) -> bool
    ensures { result ≡ spec.named_fits known.now (item_of item.now) }
{
    is_well_named(item) && fits(known, item)
}
