//! What is given by what operands hold.

ghost use Rattle.std.specs.Prelude.{◌≡◌, ◌&&◌, Some, if◌then◌else◌};
ghost use Rattle.cf_core.specs.FromTypes.{Tables as TablesOf};
ghost use Rattle.cf_core.specs.Typing as typing;
ghost use Rattle.cf_core.specs.View.{change_of};
ghost use Rattle.cf_plain_kept.specs.Kept as definition;
ghost use Rattle.cf_types.specs.Operators as operators;
ghost use Rattle.cf_lowerable_types.specs.Kinds.{has_kind as kind_in};
ghost use Rattle.cf_lowerable_ready.specs.Contents.{known, place_type};

use crate::content::{Content, Place, is_integer};
use crate::takes::has_kind;
use crate::types::of_kind;
use cf_base::{Arith, Kind};
use cf_core::Change;
use cf_lowerable_types::{Kinds, all_kinds};

// ---- pointers and integers

/// The place that a pointer points to.
pub fn pointed(content: &Content) -> Content
    ensures { (tables : TablesOf) → known tables result ≡ definition.pointed_kept (known tables content.now) }
{
    match content {
        Content::Place(place) => Content::Place(*place),
        Content::Unset => Content::Unset,
        Content::NoValue => Content::Unset,
        Content::Number(_) => Content::Unset,
        Content::Member(_) => Content::Unset,
        Content::Object(_, _) => Content::Unset,
    }
}

/// A pointer that is moved by an integer.
fn with_number(place: &Place, right: &Content) -> Content
    ensures { (tables : TablesOf) → known tables result ≡ definition.forth (Some (definition.a_place (place_type tables place.now))) (known tables right.now) }
{
    match right {
        Content::Number(_) => Content::Place(*place),
        Content::Unset => Content::Unset,
        Content::NoValue => Content::Unset,
        Content::Place(_) => Content::Unset,
        Content::Member(_) => Content::Unset,
        Content::Object(_, _) => Content::Unset,
    }
}

/// The same with the integer first.
fn with_place(kinds: &Kinds, right: &Content) -> Content
    ensures { (tables : TablesOf) → known tables result ≡ definition.moved_kept (Some (definition.an_integer (kind_in kinds.now))) (known tables right.now) }
{
    let _kinds = *kinds;
    match right {
        Content::Place(place) => Content::Place(*place),
        Content::Unset => Content::Unset,
        Content::NoValue => Content::Unset,
        Content::Number(_) => Content::Unset,
        Content::Member(_) => Content::Unset,
        Content::Object(_, _) => Content::Unset,
    }
}

/// A pointer and an integer.
pub fn forth(left: &Content, right: &Content) -> Content
    ensures { (tables : TablesOf) → known tables result ≡ definition.forth (known tables left.now) (known tables right.now) }
{
    match left {
        Content::Place(place) => with_number(place, right),
        Content::Unset => Content::Unset,
        Content::NoValue => Content::Unset,
        Content::Number(_) => Content::Unset,
        Content::Member(_) => Content::Unset,
        Content::Object(_, _) => Content::Unset,
    }
}

/// The same in either order (5.7).
pub fn moved(left: &Content, right: &Content) -> Content
    ensures { (tables : TablesOf) → known tables result ≡ definition.moved_kept (known tables left.now) (known tables right.now) }
{
    match left {
        Content::Number(kinds) => with_place(kinds, right),
        Content::Place(place) => with_number(place, right),
        Content::Unset => Content::Unset,
        Content::NoValue => Content::Unset,
        Content::Member(_) => Content::Unset,
        Content::Object(_, _) => Content::Unset,
    }
}

// ---- integers

/// An integer that is 0 or 1.
#[tactic(auto, using(crate::proofs::GivenLaws::truth_known))]
fn truth() -> Content
    ensures { (tables : TablesOf) → known tables result ≡ Some definition.a_truth }
{
    Content::Number(all_kinds())
}

/// Whether an operand counts as true.
pub fn tested(content: &Content) -> Content
    ensures { (tables : TablesOf) → known tables result ≡ definition.tested (known tables content.now) }
{
    match content {
        Content::Number(_) => truth(),
        Content::Place(_) => truth(),
        Content::Member(_) => truth(),
        Content::Unset => Content::Unset,
        Content::NoValue => Content::Unset,
        Content::Object(_, _) => Content::Unset,
    }
}

/// Whether an operator shifts (5.8).
fn is_shift(op: Arith) -> bool
    ensures { result ≡ operators.is_shift op }
{
    match op {
        Arith::ShiftLeft | Arith::ShiftRight => true,
        Arith::Multiply
        | Arith::Divide
        | Arith::Remainder
        | Arith::Add
        | Arith::Subtract
        | Arith::Less
        | Arith::Greater
        | Arith::LessEqual
        | Arith::GreaterEqual
        | Arith::Equal
        | Arith::NotEqual
        | Arith::And
        | Arith::Xor
        | Arith::Or => false,
    }
}

/// Whether an operator compares (5.9, 5.10).
fn is_comparison(op: Arith) -> bool
    ensures { result ≡ typing.is_comparison op }
{
    match op {
        Arith::Less
        | Arith::Greater
        | Arith::LessEqual
        | Arith::GreaterEqual
        | Arith::Equal
        | Arith::NotEqual => true,
        Arith::Multiply
        | Arith::Divide
        | Arith::Remainder
        | Arith::Add
        | Arith::Subtract
        | Arith::ShiftLeft
        | Arith::ShiftRight
        | Arith::And
        | Arith::Xor
        | Arith::Or => false,
    }
}

/// Whether an operator takes this right operand.
fn right_has(op: Arith, kind: Kind, content: &Content) -> bool
    ensures { (tables : TablesOf) → result ≡ definition.right_has op kind (known tables content.now) }
{
    if is_shift(op) {
        is_integer(content)
    } else {
        has_kind(kind, content)
    }
}

/// Whether both are so.
fn both(a: bool, b: bool) -> bool
    ensures { result ≡ (a && b) }
{
    a && b
}

/// Whether it takes both operands.
fn takes_both(op: Arith, kind: Kind, left: &Content, right: &Content) -> bool
    ensures { (tables : TablesOf) → result ≡ (definition.has_kind kind (known tables left.now) && definition.right_has op kind (known tables right.now)) }
{
    let first = has_kind(kind, left);
    let second = right_has(op, kind, right);
    both(first, second)
}

/// What it gives of operands of this kind; a comparison gives 0 or 1.
fn operator_gives(op: Arith, kind: Kind) -> Content
    ensures { (tables : TablesOf) → known tables result ≡ Some (if typing.is_comparison op then definition.a_truth else definition.of_kind kind) }
{
    if is_comparison(op) {
        truth()
    } else {
        of_kind(kind)
    }
}

/// What an operator gives.
pub fn operated(op: Arith, kind: Kind, left: &Content, right: &Content) -> Content
    ensures { (tables : TablesOf) → known tables result ≡ definition.operated op kind (known tables left.now) (known tables right.now) }
{
    if takes_both(op, kind, left, right) {
        operator_gives(op, kind)
    } else {
        Content::Unset
    }
}

/// The same of one operand.
pub fn unary(kind: Kind, operand: &Content) -> Content
    ensures { (tables : TablesOf) → known tables result ≡ definition.given (definition.has_kind kind (known tables operand.now)) (definition.of_kind kind) }
{
    if has_kind(kind, operand) {
        of_kind(kind)
    } else {
        Content::Unset
    }
}

/// Whether an integer may be changed by another value.
fn takes_change(op: Arith, kind: Kind, left: &Content, right: &Content) -> bool
    ensures { (tables : TablesOf) → result ≡ (definition.integer_in (known tables left.now) && definition.right_has op kind (known tables right.now)) }
{
    let first = is_integer(left);
    let second = right_has(op, kind, right);
    both(first, second)
}

/// The new value of an integer that is changed in place.
fn counted(op: Arith, kind: Kind, to: Kind, left: &Content, right: &Content) -> Content
    ensures { (tables : TablesOf) → known tables result ≡ definition.given (definition.integer_in (known tables left.now) && definition.right_has op kind (known tables right.now)) (definition.of_kind to) }
{
    if takes_change(op, kind, left, right) {
        of_kind(to)
    } else {
        Content::Unset
    }
}

/// The new value of a scalar that is changed in place (5.17).
pub fn changed(change: Change, left: &Content, right: &Content) -> Content
    ensures { (tables : TablesOf) → known tables result ≡ definition.changed_kept (change_of change) (known tables left.now) (known tables right.now) }
{
    match change {
        Change::Arithmetic { op, at, to } => counted(op, at, to, left, right),
        Change::Moved { .. } => forth(left, right),
    }
}

// ---- objects

/// What is left where an object, or an element of one, is filled by itself.
pub fn filled(content: &Content) -> Content
    ensures { (tables : TablesOf) → known tables result ≡ definition.filled (known tables content.now) }
{
    match content {
        Content::Object(_, _) => Content::NoValue,
        Content::Place(_) => Content::NoValue,
        Content::Unset => Content::Unset,
        Content::NoValue => Content::Unset,
        Content::Number(_) => Content::Unset,
        Content::Member(_) => Content::Unset,
    }
}
