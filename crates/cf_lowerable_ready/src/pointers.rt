//! What conversions, operators on pointers, stores and calls through pointers give.

ghost use Rattle.std.specs.Prelude.{◌≡◌, ◌||◌, Some, IfOk};
ghost use Rattle.cf_base.specs.declared.kind.Kind.TheVariants as kind;
ghost use Rattle.cf_core.specs.FromTypes.{Tables as TablesOf, type_of};
ghost use Rattle.cf_core.specs.Types as types;
ghost use Rattle.cf_plain_kept.specs.Kept as definition;
ghost use Rattle.cf_lowerable_types.specs.Kinds.{has_kind as kind_in};
ghost use Rattle.cf_lowerable_ready.specs.Contents.{known, place_type};
ghost use Rattle.cf_lowerable_ready.specs.Types.{IsKnown, outer_type};

use crate::content::{Content, Place, is_integer};
use crate::forms::inner;
use crate::operands::{forth, moved};
use crate::takes::{place_takes, same_but_const, type_takes};
use crate::types::{called, is_nothing, of_kind};
use cf_base::{Kind, Memory};
use cf_core::PointerOperator;
use cf_lower_same::same_bare;
use cf_lower_types::{Form, Tables};
use cf_lowerable_types::Kinds;
use cf_types::TyId;

// ---- what is given if a test is passed

fn int_if(test: bool) -> Content
    ensures { (tables : TablesOf) → known tables result ≡ definition.given test (definition.of_kind kind.Int) }
{
    if test {
        of_kind(Kind::Int)
    } else {
        Content::Unset
    }
}

fn no_value_if(test: bool) -> Content
    ensures { (tables : TablesOf) → known tables result ≡ definition.given test definition.no_value }
{
    if test {
        Content::NoValue
    } else {
        Content::Unset
    }
}

/// A place of this type.
fn place_if(test: bool, to: TyId) -> Content
    ensures { (tables : TablesOf) → known tables result ≡ definition.given test (definition.a_place (type_of tables to)) }
{
    if test {
        Content::Place(Place::Of(to))
    } else {
        Content::Unset
    }
}

/// What a call gives of a function of this type.
fn call_if(tables: &Tables<'_>, test: bool, ty: TyId) -> Content
    ensures { known tables.now result ≡ definition.given test (definition.value_of (types.result (type_of tables.now ty))) }
{
    if test {
        called(tables, ty)
    } else {
        Content::Unset
    }
}

// ---- operators on pointers

fn numbers_compared(kinds: &Kinds, right: &Content) -> Content
    ensures { (tables : TablesOf) → known tables result ≡ definition.compared (Some (definition.an_integer (kind_in kinds.now))) (known tables right.now) }
{
    let _kinds = *kinds;
    match right {
        Content::Number(_) => of_kind(Kind::Int),
        Content::Unset => Content::Unset,
        Content::NoValue => Content::Unset,
        Content::Place(_) => Content::Unset,
        Content::Member(_) => Content::Unset,
        Content::Object(_, _) => Content::Unset,
    }
}

#[tactic(auto, using(crate::proofs::GivenLaws::test_of))]
fn places_compared(tables: &Tables<'_>, place: &Place, right: &Content) -> Result<Content, Memory>
    ensures { IfOk result (λ c. known tables.now c ≡ definition.compared (Some (definition.a_place (place_type tables.now place.now))) (known tables.now right.now)) }
{
    match right {
        Content::Place(other) => {
            let same = same_but_const(tables, place, other)?;
            Ok(int_if(same))
        }
        Content::Unset => Ok(Content::Unset),
        Content::NoValue => Ok(Content::Unset),
        Content::Number(_) => Ok(Content::Unset),
        Content::Member(_) => Ok(Content::Unset),
        Content::Object(_, _) => Ok(Content::Unset),
    }
}

#[tactic(auto, using(crate::proofs::GivenLaws::test_of))]
fn members_compared(tables: &Tables<'_>, ty: TyId, right: &Content) -> Result<Content, Memory>
    ensures { IfOk result (λ c. known tables.now c ≡ definition.compared (Some (definition.a_member (type_of tables.now ty))) (known tables.now right.now)) }
{
    match right {
        Content::Member(other) => {
            let same = same_bare(tables, ty, *other)?;
            Ok(int_if(same))
        }
        Content::Unset => Ok(Content::Unset),
        Content::NoValue => Ok(Content::Unset),
        Content::Number(_) => Ok(Content::Unset),
        Content::Place(_) => Ok(Content::Unset),
        Content::Object(_, _) => Ok(Content::Unset),
    }
}

/// What a comparison gives of two pointers.
fn compared(tables: &Tables<'_>, left: &Content, right: &Content) -> Result<Content, Memory>
    ensures { IfOk result (λ c. known tables.now c ≡ definition.compared (known tables.now left.now) (known tables.now right.now)) }
{
    match left {
        Content::Place(place) => {
            let made = places_compared(tables, place, right)?;
            Ok(made)
        }
        Content::Member(ty) => {
            let made = members_compared(tables, *ty, right)?;
            Ok(made)
        }
        Content::Number(kinds) => Ok(numbers_compared(kinds, right)),
        Content::Unset => Ok(Content::Unset),
        Content::NoValue => Ok(Content::Unset),
        Content::Object(_, _) => Ok(Content::Unset),
    }
}

/// What an operator on pointers gives.
pub fn pointer_operated(
    tables: &Tables<'_>,
    op: PointerOperator,
    left: &Content,
    right: &Content,
) -> Result<Content, Memory>
    ensures { IfOk result (λ c. known tables.now c ≡ definition.pointer_operated op (known tables.now left.now) (known tables.now right.now)) }
{
    match op {
        PointerOperator::Add => Ok(moved(left, right)),
        PointerOperator::Subtract => Ok(forth(left, right)),
        PointerOperator::Difference
        | PointerOperator::Less
        | PointerOperator::Greater
        | PointerOperator::LessEqual
        | PointerOperator::GreaterEqual
        | PointerOperator::Equal
        | PointerOperator::NotEqual => compared(tables, left, right),
    }
}

// ---- conversions

/// Whether a pointer to places of one type is converted to one to those of another (4.6).
#[tactic(auto, using(crate::proofs::GivenLaws::either_first, crate::proofs::GivenLaws::either_second))]
fn converts(tables: &Tables<'_>, to: TyId, from: &Place) -> Result<bool, Memory>
    ensures { IfOk result (λ may. may ≡ (types.is_void (type_of tables.now to) || types.same_but_const (place_type tables.now from.now) (type_of tables.now to))) }
{
    let target = Place::Of(to);
    if is_nothing(tables, &target)? {
        return Ok(true);
    }
    let same = same_but_const(tables, from, &target)?;
    Ok(same)
}

/// A pointer that is converted to one to places of this type.
#[tactic(auto, using(crate::proofs::Meetings::chosen_same, crate::proofs::Meetings::chosen_other))]
fn place_converted(tables: &Tables<'_>, to: TyId, from: &Place) -> Result<Content, Memory>
    ensures { IfOk result (λ c. known tables.now c ≡ definition.to_place (type_of tables.now to) (Some (definition.a_place (place_type tables.now from.now)))) }
{
    if converts(tables, to, from)? {
        Ok(Content::Place(Place::Of(to)))
    } else {
        Ok(Content::Unset)
    }
}

/// The same of any register: 0 is converted too.
fn to_place(tables: &Tables<'_>, to: TyId, content: &Content) -> Result<Content, Memory>
    ensures { IfOk result (λ c. known tables.now c ≡ definition.to_place (type_of tables.now to) (known tables.now content.now)) }
{
    match content {
        Content::Number(_) => Ok(Content::Place(Place::Of(to))),
        Content::Place(from) => {
            let made = place_converted(tables, to, from)?;
            Ok(made)
        }
        Content::Unset => Ok(Content::Unset),
        Content::NoValue => Ok(Content::Unset),
        Content::Member(_) => Ok(Content::Unset),
        Content::Object(_, _) => Ok(Content::Unset),
    }
}

/// A pointer to a member that is converted to this type.
#[tactic(auto, using(crate::proofs::Meetings::chosen_same, crate::proofs::Meetings::chosen_other))]
fn member_converted(tables: &Tables<'_>, id: TyId, from: TyId) -> Result<Content, Memory>
    ensures { IfOk result (λ c. known tables.now c ≡ definition.to_member (type_of tables.now id) (Some (definition.a_member (type_of tables.now from)))) }
{
    if same_bare(tables, from, id)? {
        Ok(Content::Member(id))
    } else {
        Ok(Content::Unset)
    }
}

/// The same of any register: 0 is converted too.
fn to_member(tables: &Tables<'_>, id: TyId, content: &Content) -> Result<Content, Memory>
    ensures { IfOk result (λ c. known tables.now c ≡ definition.to_member (type_of tables.now id) (known tables.now content.now)) }
{
    match content {
        Content::Number(_) => Ok(Content::Member(id)),
        Content::Member(from) => {
            let made = member_converted(tables, id, *from)?;
            Ok(made)
        }
        Content::Unset => Ok(Content::Unset),
        Content::NoValue => Ok(Content::Unset),
        Content::Place(_) => Ok(Content::Unset),
        Content::Object(_, _) => Ok(Content::Unset),
    }
}

/// What is converted to `void`.
fn to_nothing(content: &Content) -> Content
    ensures { (tables : TablesOf) → known tables result ≡ definition.converted types.void (known tables content.now) }
{
    match content {
        Content::Unset => Content::Unset,
        Content::NoValue => Content::NoValue,
        Content::Number(_) => Content::NoValue,
        Content::Place(_) => Content::NoValue,
        Content::Member(_) => Content::NoValue,
        Content::Object(_, _) => Content::NoValue,
    }
}

/// What is converted to an integer type.
fn to_integer(kind: Kind, content: &Content) -> Content
    ensures { (tables : TablesOf) → known tables result ≡ definition.given (definition.integer_in (known tables content.now)) (definition.of_kind kind) }
{
    if is_integer(content) {
        of_kind(kind)
    } else {
        Content::Unset
    }
}

/// What is converted to a type of this form, which is the type of this number (4).
#[tactic(auto, using(crate::proofs::GivenLaws::data_member_converted, crate::proofs::GivenLaws::function_member_converted, crate::proofs::TypeLaws::function_converts))]
fn form_converted(
    tables: &Tables<'_>,
    id: TyId,
    form: Form,
    content: &Content,
) -> Result<Content, Memory>
    requires is { type_of tables.now id ≡ outer_type tables.now form }
    requires there { IsKnown tables.now form }
    ensures { IfOk result (λ c. known tables.now c ≡ definition.converted (outer_type tables.now form) (known tables.now content.now)) }
{
    match form {
        Form::Void => Ok(to_nothing(content)),
        Form::Integer(kind) => Ok(to_integer(kind, content)),
        Form::Enumeration(_) => Ok(to_integer(Kind::Int, content)),
        Form::Pointer(target) => {
            let made = to_place(tables, target, content)?;
            Ok(made)
        }
        Form::DataMember(_, _) => {
            let made = to_member(tables, id, content)?;
            Ok(made)
        }
        Form::FunctionMember(_, _) => {
            let made = to_member(tables, id, content)?;
            Ok(made)
        }
        Form::Reference(_) => Ok(Content::Unset),
        Form::Class(_) => Ok(Content::Unset),
        Form::Array(_, _) => Ok(Content::Unset),
        Form::Function(_) => Ok(Content::Unset),
    }
}

/// What is converted to this type (4).
pub fn converted(tables: &Tables<'_>, id: TyId, content: &Content) -> Result<Content, Memory>
    ensures { IfOk result (λ c. known tables.now c ≡ definition.converted (type_of tables.now id) (known tables.now content.now)) }
{
    let t = inner(tables, id);
    let made = form_converted(tables, t.id, t.form, content)?;
    Ok(made)
}

/// A pointer to `void` that is converted to one to places of this type (5.4).
#[tactic(auto, using(crate::proofs::GivenLaws::test_of))]
pub fn from_void(tables: &Tables<'_>, to: TyId, content: &Content) -> Result<Content, Memory>
    ensures { IfOk result (λ c. known tables.now c ≡ definition.from_void_kept (type_of tables.now to) (known tables.now content.now)) }
{
    match content {
        Content::Place(from) => {
            let void = is_nothing(tables, from)?;
            Ok(place_if(void, to))
        }
        Content::Unset => Ok(Content::Unset),
        Content::NoValue => Ok(Content::Unset),
        Content::Number(_) => Ok(Content::Unset),
        Content::Member(_) => Ok(Content::Unset),
        Content::Object(_, _) => Ok(Content::Unset),
    }
}

// ---- values that are put into places

/// What is left of a value that is put into a place of its type.
#[tactic(auto, using(crate::proofs::GivenLaws::stored_at))]
pub fn stored(tables: &Tables<'_>, place: &Content, value: &Content) -> Result<Content, Memory>
    ensures { IfOk result (λ c. known tables.now c ≡ definition.stored (known tables.now place.now) (known tables.now value.now)) }
{
    match place {
        Content::Place(ty) => {
            let takes = place_takes(tables, ty, value)?;
            Ok(no_value_if(takes))
        }
        Content::Unset => Ok(Content::Unset),
        Content::NoValue => Ok(Content::Unset),
        Content::Number(_) => Ok(Content::Unset),
        Content::Member(_) => Ok(Content::Unset),
        Content::Object(_, _) => Ok(Content::Unset),
    }
}

/// The same of the first value of an object, or of an element of one.
#[tactic(auto, using(crate::proofs::GivenLaws::begun_at, crate::proofs::GivenLaws::begun_in))]
pub fn begun(tables: &Tables<'_>, place: &Content, value: &Content) -> Result<Content, Memory>
    ensures { IfOk result (λ c. known tables.now c ≡ definition.begun (known tables.now place.now) (known tables.now value.now)) }
{
    match place {
        Content::Object(_, ty) => {
            let takes = type_takes(tables, *ty, value)?;
            Ok(no_value_if(takes))
        }
        Content::Place(ty) => {
            let takes = place_takes(tables, ty, value)?;
            Ok(no_value_if(takes))
        }
        Content::Unset => Ok(Content::Unset),
        Content::NoValue => Ok(Content::Unset),
        Content::Number(_) => Ok(Content::Unset),
        Content::Member(_) => Ok(Content::Unset),
    }
}

/// What a call gives through a pointer to a function of this type.
#[tactic(auto, using(crate::proofs::GivenLaws::test_of))]
pub fn pointed_call(tables: &Tables<'_>, ty: TyId, pointer: &Content) -> Result<Content, Memory>
    ensures { IfOk result (λ c. known tables.now c ≡ definition.pointed_call (type_of tables.now ty) (known tables.now pointer.now)) }
{
    match pointer {
        Content::Place(own) => {
            let same = same_but_const(tables, own, &Place::Of(ty))?;
            Ok(call_if(tables, same, ty))
        }
        Content::Unset => Ok(Content::Unset),
        Content::NoValue => Ok(Content::Unset),
        Content::Number(_) => Ok(Content::Unset),
        Content::Member(_) => Ok(Content::Unset),
        Content::Object(_, _) => Ok(Content::Unset),
    }
}
