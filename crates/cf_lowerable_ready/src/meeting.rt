//! What a register holds that holds this or that.

ghost use Rattle.std.specs.Prelude.{◌≡◌, Some, IfOk};
ghost use Rattle.cf_core.specs.FromTypes.{Tables as TablesOf, type_of};
ghost use Rattle.cf_plain_kept.specs.Kept as definition;
ghost use Rattle.cf_lowerable_types.specs.Kinds.{has_kind};
ghost use Rattle.cf_lowerable_ready.specs.Contents.{in_both, known, place_type};

use crate::content::{Content, Place};
use crate::takes::same_but_const;
use cf_base::Memory;
use cf_lower_same::same_bare;
use cf_lower_types::Tables;
use cf_lowerable_types::{Kinds, meet_kinds};
use cf_types::TyId;

/// What a register holds that holds this or that, if that is the same but for const.
#[tactic(auto, using(crate::proofs::Meetings::none_both))]
pub fn both(tables: &Tables<'_>, a: &Content, b: &Content) -> Result<Content, Memory>
    ensures { IfOk result (λ c. known tables.now c ≡ in_both (known tables.now a.now) (known tables.now b.now)) }
{
    match a {
        Content::Unset => Ok(Content::Unset),
        Content::NoValue => Ok(both_no_values(b)),
        Content::Number(kinds) => Ok(both_numbers(kinds, b)),
        Content::Place(place) => {
            let made = both_places(tables, place, b)?;
            Ok(made)
        }
        Content::Member(ty) => {
            let made = both_members(tables, *ty, b)?;
            Ok(made)
        }
        Content::Object(local, ty) => {
            let made = both_objects(tables, *local, *ty, b)?;
            Ok(made)
        }
    }
}

/// Where the first is no value.
fn both_no_values(b: &Content) -> Content
    ensures { (tables : TablesOf) → known tables result ≡ in_both (Some definition.no_value) (known tables b.now) }
{
    match b {
        Content::NoValue => Content::NoValue,
        Content::Unset => Content::Unset,
        Content::Number(_) => Content::Unset,
        Content::Place(_) => Content::Unset,
        Content::Member(_) => Content::Unset,
        Content::Object(_, _) => Content::Unset,
    }
}

/// Where the first is an integer.
#[tactic(auto, using(crate::proofs::Meetings::numbers_met))]
fn both_numbers(kinds: &Kinds, b: &Content) -> Content
    ensures { (tables : TablesOf) → known tables result ≡ in_both (Some (definition.an_integer (has_kind kinds.now))) (known tables b.now) }
{
    match b {
        Content::Number(others) => Content::Number(meet_kinds(kinds, others)),
        Content::Unset => Content::Unset,
        Content::NoValue => Content::Unset,
        Content::Place(_) => Content::Unset,
        Content::Member(_) => Content::Unset,
        Content::Object(_, _) => Content::Unset,
    }
}

/// Where the first is a place.
#[tactic(auto, using(crate::proofs::Meetings::chosen_same, crate::proofs::Meetings::chosen_other))]
fn both_places(tables: &Tables<'_>, place: &Place, b: &Content) -> Result<Content, Memory>
    ensures { IfOk result (λ c. known tables.now c ≡ in_both (Some (definition.a_place (place_type tables.now place.now))) (known tables.now b.now)) }
{
    match b {
        Content::Place(other) => {
            if same_but_const(tables, place, other)? {
                Ok(Content::Place(*place))
            } else {
                Ok(Content::Unset)
            }
        }
        Content::Unset => Ok(Content::Unset),
        Content::NoValue => Ok(Content::Unset),
        Content::Number(_) => Ok(Content::Unset),
        Content::Member(_) => Ok(Content::Unset),
        Content::Object(_, _) => Ok(Content::Unset),
    }
}

/// Where the first is a pointer to a member.
#[tactic(auto, using(crate::proofs::Meetings::chosen_same, crate::proofs::Meetings::chosen_other))]
fn both_members(tables: &Tables<'_>, ty: TyId, b: &Content) -> Result<Content, Memory>
    ensures { IfOk result (λ c. known tables.now c ≡ in_both (Some (definition.a_member (type_of tables.now ty))) (known tables.now b.now)) }
{
    match b {
        Content::Member(other) => {
            if same_bare(tables, ty, *other)? {
                Ok(Content::Member(ty))
            } else {
                Ok(Content::Unset)
            }
        }
        Content::Unset => Ok(Content::Unset),
        Content::NoValue => Ok(Content::Unset),
        Content::Number(_) => Ok(Content::Unset),
        Content::Place(_) => Ok(Content::Unset),
        Content::Object(_, _) => Ok(Content::Unset),
    }
}

/// Where the first is an object.
#[tactic(auto, using(crate::proofs::Meetings::objects_same, crate::proofs::Meetings::objects_differ, crate::proofs::Meetings::other_object))]
fn both_objects(tables: &Tables<'_>, local: u32, ty: TyId, b: &Content) -> Result<Content, Memory>
    ensures { IfOk result (λ c. known tables.now c ≡ in_both (Some (definition.an_object local (type_of tables.now ty))) (known tables.now b.now)) }
{
    match b {
        Content::Object(other, with) => {
            if local != *other {
                return Ok(Content::Unset);
            }
            if same_bare(tables, ty, *with)? {
                Ok(Content::Object(local, ty))
            } else {
                Ok(Content::Unset)
            }
        }
        Content::Unset => Ok(Content::Unset),
        Content::NoValue => Ok(Content::Unset),
        Content::Number(_) => Ok(Content::Unset),
        Content::Place(_) => Ok(Content::Unset),
        Content::Member(_) => Ok(Content::Unset),
    }
}
