//! Which values places take.

ghost use Rattle.std.specs.Prelude.{◌≡◌, IfOk};
ghost use Rattle.cf_core.specs.FromTypes.{Tables as TablesOf, type_of};
ghost use Rattle.cf_core.specs.Types as types;
ghost use Rattle.cf_plain_kept.specs.Kept as definition;
ghost use Rattle.cf_lowerable_ready.specs.Contents.{is_member_of, known, place_type, suits_if};
ghost use Rattle.cf_lowerable_ready.specs.Types.{outer_type};

use crate::content::{Content, Place, is_no_value, place_of};
use crate::forms::inner;
use cf_base::{Kind, Memory};
use cf_lower_same::{same_bare, same_places};
use cf_lower_types::{Form, Tables};
use cf_types::TyId;

/// Whether an integer of this type takes what a register holds.
pub fn has_kind(kind: Kind, content: &Content) -> bool
    ensures takes { (tables : TablesOf) → result ≡ suits_if (types.integer kind) (known tables content.now) }
    ensures has { (tables : TablesOf) → result ≡ definition.has_kind kind (known tables content.now) }
{
    match content {
        Content::Number(kinds) => kinds.has(kind),
        Content::Unset => false,
        Content::NoValue => false,
        Content::Place(_) => false,
        Content::Member(_) => false,
        Content::Object(_, _) => false,
    }
}

/// Whether two types of places are the same but for const.
pub fn same_but_const(tables: &Tables<'_>, a: &Place, b: &Place) -> Result<bool, Memory>
    ensures { IfOk result (λ same. same ≡ types.same_but_const (place_type tables.now a.now) (place_type tables.now b.now)) }
{
    let first = place_of(a);
    let second = place_of(b);
    let same = same_places(tables, &first, &second)?;
    Ok(same)
}

/// Whether a pointer or a reference to this type takes what a register holds.
fn takes_place(tables: &Tables<'_>, to: TyId, content: &Content) -> Result<bool, Memory>
    ensures { IfOk result (λ takes. takes ≡ suits_if (types.pointer (type_of tables.now to)) (known tables.now content.now)) }
{
    match content {
        Content::Place(place) => {
            let same = same_but_const(tables, place, &Place::Of(to))?;
            Ok(same)
        }
        Content::Unset => Ok(false),
        Content::NoValue => Ok(false),
        Content::Number(_) => Ok(false),
        Content::Member(_) => Ok(false),
        Content::Object(_, _) => Ok(false),
    }
}

/// Whether a pointer to a member, of this type, takes what a register holds.
pub fn takes_member(tables: &Tables<'_>, id: TyId, content: &Content) -> Result<bool, Memory>
    ensures { IfOk result (λ takes. takes ≡ is_member_of (type_of tables.now id) (known tables.now content.now)) }
{
    match content {
        Content::Member(ty) => {
            let same = same_bare(tables, *ty, id)?;
            Ok(same)
        }
        Content::Unset => Ok(false),
        Content::NoValue => Ok(false),
        Content::Number(_) => Ok(false),
        Content::Place(_) => Ok(false),
        Content::Object(_, _) => Ok(false),
    }
}

/// Whether a place of a type of this form, which is the type of this number, takes what a register holds.
#[tactic(auto, using(crate::proofs::TakeLaws::enumeration_takes, crate::proofs::TakeLaws::reference_takes, crate::proofs::TakeLaws::data_member_takes, crate::proofs::TakeLaws::function_member_takes, crate::proofs::TakeLaws::void_takes, crate::proofs::TakeLaws::class_takes, crate::proofs::TakeLaws::array_takes, crate::proofs::TakeLaws::function_takes))]
fn form_takes(tables: &Tables<'_>, id: TyId, form: Form, content: &Content) -> Result<bool, Memory>
    requires is { type_of tables.now id ≡ outer_type tables.now form }
    ensures { IfOk result (λ takes. takes ≡ suits_if (outer_type tables.now form) (known tables.now content.now)) }
{
    match form {
        Form::Integer(kind) => Ok(has_kind(kind, content)),
        Form::Enumeration(_) => Ok(has_kind(Kind::Int, content)),
        Form::Pointer(target) => {
            let takes = takes_place(tables, target, content)?;
            Ok(takes)
        }
        Form::Reference(target) => {
            let takes = takes_place(tables, target, content)?;
            Ok(takes)
        }
        Form::DataMember(_, _) => {
            let takes = takes_member(tables, id, content)?;
            Ok(takes)
        }
        Form::FunctionMember(_, _) => {
            let takes = takes_member(tables, id, content)?;
            Ok(takes)
        }
        Form::Void => Ok(is_no_value(content)),
        Form::Class(_) => Ok(is_no_value(content)),
        Form::Array(_, _) => Ok(is_no_value(content)),
        Form::Function(_) => Ok(is_no_value(content)),
    }
}

/// Whether a place of this type takes what a register holds.
#[tactic(auto, using(crate::proofs::TakeLaws::taken_by))]
pub fn type_takes(tables: &Tables<'_>, id: TyId, content: &Content) -> Result<bool, Memory>
    ensures { IfOk result (λ takes. takes ≡ suits_if (type_of tables.now id) (known tables.now content.now)) }
{
    let t = inner(tables, id);
    let takes = form_takes(tables, t.id, t.form, content)?;
    Ok(takes)
}

/// The same of any place.
#[tactic(auto, using(crate::proofs::TakeLaws::array_place_takes))]
pub fn place_takes(tables: &Tables<'_>, place: &Place, content: &Content) -> Result<bool, Memory>
    ensures { IfOk result (λ takes. takes ≡ suits_if (place_type tables.now place.now) (known tables.now content.now)) }
{
    match place {
        Place::Of(id) => {
            let takes = type_takes(tables, *id, content)?;
            Ok(takes)
        }
        Place::Character => Ok(has_kind(Kind::Char, content)),
        Place::Characters(_) => Ok(is_no_value(content)),
    }
}
