//! Types of functions and variables, compared.

ghost use Rattle.std.specs.Prelude.{◌≡◌, ◌++◌, [], ◌∷◌, Some};
ghost use Rattle.std.specs.List.{list_any};
ghost use Rattle.cc_whole.specs.Known.{function, object};
ghost use Rattle.cc_whole.specs.Numbers as numbers;
ghost use Rattle.cc_whole.specs.Plain.{item_of};
ghost use Rattle.cc_whole.specs.Types as types;
ghost use Rattle.cc_whole.specs.Valid.{agrees, named_by};
ghost use Rattle.cc_whole_link.specs.Link as rules;
ghost use Rattle.cc_whole_placed.specs.Seen.{placed_of};
ghost use Rattle.cc_whole_linker.specs.Earlier.{Chained};
ghost use Rattle.cc_whole_linker.specs.Rules.{seen};

use crate::earlier::Earlier;
use cc_whole::{CConstant, CItem, CParameter, CPrototype, CType, CVariableType};
use cc_whole_placed::{PlacedItem, name_of};

fn same_result(a: Option<CType>, b: Option<CType>) -> bool
    ensures { result ≡ types.same_result a b }
{
    match (a, b) {
        (None, None) => true,
        (Some(s), Some(t)) => s.is(t),
        (None, Some(_)) => false,
        (Some(_), None) => false,
    }
}

/// Whether parameters have the same types.
fn same_types(a: &[CParameter], b: &[CParameter]) -> bool
    ensures { result ≡ types.same_types (types.parameter_types a.now) (types.parameter_types b.now) }
{
    match a.split_first() {
        None => b.is_empty(),
        Some((x, rest)) => match b.split_first() {
            None => false,
            Some((y, others)) => x.ty.is(y.ty) && same_types(rest, others),
        },
    }
}

fn same_signature(a: &CPrototype, b: &CPrototype) -> bool
    ensures { result ≡ types.same_signature (types.signature_of a.now) (types.signature_of b.now) }
{
    same_result(a.result, b.result) && same_types(a.parameters.as_slice(), b.parameters.as_slice())
}

/// How many elements an array of this size has.
pub(crate) fn size_of(constant: CConstant) -> u32
    ensures { result ≡ numbers.size_of constant }
{
    match constant {
        CConstant::Signed(number) => u32::try_from(number).unwrap_or(0),
        CConstant::Unsigned(number) => number,
    }
}

fn same_variable(a: CVariableType, b: CVariableType) -> bool
    ensures { result ≡ types.same_variable a b }
{
    match (a, b) {
        (CVariableType::Scalar(s), CVariableType::Scalar(t)) => s.is(t),
        (CVariableType::Ints(c), CVariableType::Ints(d)) => size_of(c) == size_of(d),
        (CVariableType::Chars(c), CVariableType::Chars(d)) => size_of(c) == size_of(d),
        (CVariableType::Pairs(c), CVariableType::Pairs(d)) => size_of(c) == size_of(d),
        _ => false,
    }
}

/// Whether a function with this head has the type of an item.
fn same_function(head: &CPrototype, item: &CItem) -> bool
    ensures { result ≡ agrees (Some (function head.now)) (named_by (item_of item.now)).meant }
{
    match item {
        CItem::Prototype(p) => same_signature(head, p),
        CItem::Function(f) => same_signature(head, &f.prototype),
        CItem::Extern(_, _) => false,
        CItem::Variable(_) => false,
    }
}

/// Whether a variable of this type has the type of an item.
fn same_object(ty: CVariableType, item: &CItem) -> bool
    ensures { result ≡ agrees (Some (object ty)) (named_by (item_of item.now)).meant }
{
    match item {
        CItem::Prototype(_) => false,
        CItem::Function(_) => false,
        CItem::Extern(other, _) => same_variable(ty, *other),
        CItem::Variable(v) => same_variable(ty, v.ty),
    }
}

/// Whether two items declare something of one type.
fn same_type(a: &CItem, b: &CItem) -> bool
    ensures { result ≡ agrees (Some (named_by (item_of a.now)).meant) (named_by (item_of b.now)).meant }
{
    match a {
        CItem::Prototype(p) => same_function(p, b),
        CItem::Function(f) => same_function(&f.prototype, b),
        CItem::Extern(ty, _) => same_object(*ty, b),
        CItem::Variable(v) => same_object(v.ty, b),
    }
}

/// Whether the other one declares the same name with another type.
fn other_type(placed: &PlacedItem<'_>, other: &PlacedItem<'_>) -> bool
    ensures { result ≡ rules.other_type (placed_of placed.entry.now) (placed_of other.entry.now) }
{
    name_of(&other.now) == name_of(&placed.now) && !same_type(&other.now, &placed.now)
}

/// Whether one of those before it does.
pub(crate) fn any_other_type(
    before: &[PlacedItem<'_>],
    places: &[Option<usize>],
    placed: &PlacedItem<'_>,
) -> bool
    requires { Chained (seen before.now ++ placed_of placed.now ∷ []) places.now }
    ensures { result ≡ list_any (rules.other_type (placed_of placed.entry.now)) (seen before.now) }
{
    let mut left = Earlier::of(placed, before, places);
    while let Some(other) = left.next() {
        if other_type(placed, other) {
            return true;
        }
    }
    false
}
