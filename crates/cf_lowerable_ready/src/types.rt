//! What is asked of types, and what names and scalars of them give.

ghost use Rattle.std.specs.Prelude.{◌≡◌, Some, IfOk};
ghost use Rattle.cf_core.specs.FromTypes.{Tables as TablesOf, type_of};
ghost use Rattle.cf_core.specs.Types as types;
ghost use Rattle.cf_lower_kept.specs.Ready as ready;
ghost use Rattle.cf_lower_types.specs.Forms as forms;
ghost use Rattle.cf_plain_kept.specs.Kept as definition;
ghost use Rattle.cf_lowerable_ready.specs.Contents as spec;
ghost use Rattle.cf_lowerable_ready.specs.Contents.{known, place_type};
ghost use Rattle.cf_lowerable_ready.specs.Types.{IsKnown, outer_type};

use crate::content::{Content, Place, place_of};
use crate::forms::{inner, under_const};
use cf_base::{Kind, Memory};
use cf_lower_types::{Form, Tables};
use cf_lowerable_types::{is_code, is_reference, is_void_place, kinds_within};
use cf_types::{FunId, Ty, TyId};

/// An integer of this type.
#[tactic(auto, using(crate::proofs::TypeLaws::kind_known))]
pub fn of_kind(kind: Kind) -> Content
    ensures { (tables : TablesOf) → known tables result ≡ Some (definition.of_kind kind) }
{
    Content::Number(kinds_within(kind))
}

// ---- names

/// The type that a reference is to.
fn target_in(ty: &Ty) -> Option<TyId>
    ensures { result ≡ forms.target_in ty.now }
{
    match ty {
        Ty::Ref(target) => Some(*target),
        Ty::Void
        | Ty::Int(_)
        | Ty::Enum(_)
        | Ty::Class(_)
        | Ty::Ptr(_)
        | Ty::Array(_, _)
        | Ty::Fun(_)
        | Ty::MemData(_, _)
        | Ty::MemFun(_, _)
        | Ty::Const(_) => None,
    }
}

/// What a name of this type gives: a reference is another name for a place (8.4.3).
#[tactic(auto, using(crate::proofs::TypeLaws::named_reference, crate::proofs::TypeLaws::named_other))]
pub fn named(tables: &Tables<'_>, id: TyId) -> Content
    ensures { known tables.now result ≡ definition.named (Some (type_of tables.now id)) }
{
    let ty = tables.entry(id);
    match target_in(&ty) {
        Some(target) => Content::Place(Place::Of(target)),
        None => Content::Place(Place::Of(id)),
    }
}

/// Whether no const stands on a reference (8.4.3).
#[tactic(auto, using(crate::proofs::TypeLaws::well_const, crate::proofs::TypeLaws::well_other))]
pub fn names_well(tables: &Tables<'_>, id: TyId) -> bool
    ensures { result ≡ ready.names_well (type_of tables.now id) }
{
    let ty = tables.entry(id);
    match under_const(&ty) {
        Some(inside) => !is_reference(tables, inside),
        None => true,
    }
}

// ---- scalars

/// What a scalar of a type of this form holds, which is the type of this number; nothing if it is none.
fn scalar_in(tables: &Tables<'_>, id: TyId, form: Form) -> Content
    requires is { type_of tables.now id ≡ outer_type tables.now form }
    ensures { known tables.now result ≡ definition.kept_of (outer_type tables.now form) }
{
    let _tables = tables;
    match form {
        Form::Integer(kind) => of_kind(kind),
        Form::Enumeration(_) => of_kind(Kind::Int),
        Form::Pointer(target) => Content::Place(Place::Of(target)),
        Form::Reference(target) => Content::Place(Place::Of(target)),
        Form::DataMember(_, _) => Content::Member(id),
        Form::FunctionMember(_, _) => Content::Member(id),
        Form::Void => Content::Unset,
        Form::Class(_) => Content::Unset,
        Form::Array(_, _) => Content::Unset,
        Form::Function(_) => Content::Unset,
    }
}

/// What a scalar of this type holds; nothing if it is none.
pub fn scalar_of(tables: &Tables<'_>, id: TyId) -> Content
    ensures { known tables.now result ≡ definition.kept_of (type_of tables.now id) }
{
    let t = inner(tables, id);
    scalar_in(tables, t.id, t.form)
}

/// What is read at a place of this type.
pub fn read_at(tables: &Tables<'_>, place: &Place) -> Content
    ensures { known tables.now result ≡ definition.kept_of (place_type tables.now place.now) }
{
    match place {
        Place::Of(id) => scalar_of(tables, *id),
        Place::Character => of_kind(Kind::Char),
        Place::Characters(_) => Content::Unset,
    }
}

// ---- what functions give

/// The number of a function's type.
fn function_in(ty: Ty) -> Option<FunId>
    ensures { result ≡ forms.function_in ty }
{
    match ty {
        Ty::Fun(function) => Some(function),
        Ty::Void
        | Ty::Int(_)
        | Ty::Enum(_)
        | Ty::Class(_)
        | Ty::Ptr(_)
        | Ty::Ref(_)
        | Ty::Array(_, _)
        | Ty::MemData(_, _)
        | Ty::MemFun(_, _)
        | Ty::Const(_) => None,
    }
}

/// What is left of a call whose result, if it is a scalar, holds this.
fn valued(content: Content) -> Content
    ensures { (tables : TablesOf) → known tables result ≡ Some (spec.valued (known tables content)) }
{
    match content {
        Content::Unset => Content::NoValue,
        Content::NoValue => Content::NoValue,
        Content::Number(kinds) => Content::Number(kinds),
        Content::Place(place) => Content::Place(place),
        Content::Member(ty) => Content::Member(ty),
        Content::Object(local, ty) => Content::Object(local, ty),
    }
}

/// What a call gives whose result is of this type.
fn given_by(tables: &Tables<'_>, given: TyId) -> Content
    ensures { known tables.now result ≡ Some (definition.value_of (type_of tables.now given)) }
{
    valued(scalar_of(tables, given))
}

/// What a call of a function of this type gives.
#[tactic(auto, using(cf_lower_types::proofs::FunctionLaws::function_within, crate::proofs::TypeLaws::function_gives, crate::proofs::TypeLaws::other_gives))]
pub fn called(tables: &Tables<'_>, id: TyId) -> Content
    ensures { known tables.now result ≡ Some (definition.value_of (types.result (type_of tables.now id))) }
{
    match function_in(tables.entry(id)) {
        Some(function) => {
            let fun = tables.fun(function);
            given_by(tables, fun.result)
        }
        None => Content::NoValue,
    }
}

// ---- the first element of an array

/// The same of a type of this form.
fn decayed_in(tables: &Tables<'_>, id: TyId, form: Form) -> Content
    requires is { type_of tables.now id ≡ outer_type tables.now form }
    requires there { IsKnown tables.now form }
    ensures { known tables.now result ≡ definition.decayed (outer_type tables.now form) }
{
    let _tables = tables;
    match form {
        Form::Array(element, _) => Content::Place(Place::Of(element)),
        Form::Function(_) => Content::Place(Place::Of(id)),
        Form::Void => Content::Unset,
        Form::Integer(_) => Content::Unset,
        Form::Enumeration(_) => Content::Unset,
        Form::Class(_) => Content::Unset,
        Form::Pointer(_) => Content::Unset,
        Form::Reference(_) => Content::Unset,
        Form::DataMember(_, _) => Content::Unset,
        Form::FunctionMember(_, _) => Content::Unset,
    }
}

/// What an array of this type gives, or a function, which stays itself (4.6).
pub fn decayed(tables: &Tables<'_>, id: TyId) -> Content
    ensures { known tables.now result ≡ definition.decayed (type_of tables.now id) }
{
    let t = inner(tables, id);
    decayed_in(tables, t.id, t.form)
}

/// The same of any place.
pub fn decayed_at(tables: &Tables<'_>, place: &Place) -> Content
    ensures { known tables.now result ≡ definition.decayed (place_type tables.now place.now) }
{
    match place {
        Place::Of(id) => decayed(tables, *id),
        Place::Characters(_) => Content::Place(Place::Character),
        Place::Character => Content::Unset,
    }
}

// ---- what is asked of types

/// Whether the elements of an array of this form are objects.
fn form_has_objects(tables: &Tables<'_>, form: Form) -> bool
    ensures { result ≡ ready.has_objects (outer_type tables.now form) }
{
    match form {
        Form::Array(element, _) => !is_code(tables, element),
        Form::Function(_) => true,
        Form::Void => true,
        Form::Integer(_) => true,
        Form::Enumeration(_) => true,
        Form::Class(_) => true,
        Form::Pointer(_) => true,
        Form::Reference(_) => true,
        Form::DataMember(_, _) => true,
        Form::FunctionMember(_, _) => true,
    }
}

/// Whether the elements of an array of this type are objects.
pub fn has_objects(tables: &Tables<'_>, id: TyId) -> bool
    ensures { result ≡ ready.has_objects (type_of tables.now id) }
{
    let t = inner(tables, id);
    form_has_objects(tables, t.form)
}

/// The same of any place.
pub fn place_has_objects(tables: &Tables<'_>, place: &Place) -> bool
    ensures { result ≡ ready.has_objects (place_type tables.now place.now) }
{
    match place {
        Place::Of(id) => has_objects(tables, *id),
        Place::Character => true,
        Place::Characters(_) => true,
    }
}

/// Whether a place is no function.
pub fn is_no_code(tables: &Tables<'_>, place: &Place) -> bool
    ensures { result ≡ ready.is_no_code (place_type tables.now place.now) }
{
    match place {
        Place::Of(id) => !is_code(tables, *id),
        Place::Character => true,
        Place::Characters(_) => true,
    }
}

/// Whether places are of type `void`.
pub fn is_nothing(tables: &Tables<'_>, place: &Place) -> Result<bool, Memory>
    ensures { IfOk result (λ void. void ≡ types.is_void (place_type tables.now place.now)) }
{
    let bare = place_of(place);
    let void = is_void_place(tables, &bare)?;
    Ok(void)
}

/// Whether pointers to places of this type can be moved.
#[tactic(auto, using(crate::proofs::TypeLaws::object_so, crate::proofs::TypeLaws::object_not))]
pub fn is_object(tables: &Tables<'_>, place: &Place) -> Result<bool, Memory>
    ensures { IfOk result (λ is. is ≡ ready.is_object (place_type tables.now place.now)) }
{
    if !is_no_code(tables, place) {
        return Ok(false);
    }
    let void = is_nothing(tables, place)?;
    Ok(!void)
}
