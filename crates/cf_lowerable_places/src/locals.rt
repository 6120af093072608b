//! What is asked of locals.

ghost use Rattle.std.specs.Prelude.{◌≡◌, ◌&&◌, ◌||◌, not, nat_lt, is_some, length, map, slice_get, IfOk};
ghost use Rattle.cf_core.specs.FromTypes.{type_of};
ghost use Rattle.cf_core.specs.Places as places;
ghost use Rattle.cf_core.specs.Types as types;
ghost use Rattle.cf_lower.specs.Kept as kept;
ghost use Rattle.cf_lower_held.specs.Scenes.{locals_in};
ghost use Rattle.cf_lower_kept.specs.Ready as ready;
ghost use Rattle.cf_lower_layout.specs.Layout as layout;
ghost use Rattle.cf_lower_layout.specs.Sorts as sorts;
ghost use Rattle.cf_lower_place.specs.Calls as calls;
ghost use Rattle.cf_lower_place.specs.Leaf as leaf;
ghost use Rattle.cf_lower_types.specs.Bare.{type_in};
ghost use Rattle.cf_plain_frames.specs.Since as since;
ghost use Rattle.cf_lowerable_places.specs.Fits.{view_in};

use cf_base::Memory;
use cf_lower_held::{Scene, is_argument};
use cf_lower_same::{same_bare, same_places};
use cf_lower_types::{PlaceType, is_scalar, referred, sort_of};
use cf_lowerable_types::{const_on_none, has_bytes, is_code, is_laid, is_reference};
use cf_types::TyId;

/// The type of the local of this number, if there is one.
pub fn local_type(x: &Scene<'_>, local: u32) -> Option<TyId>
    ensures { result ≡ slice_get x.now.types local }
{
    x.types.get(local as usize).copied()
}

/// Whether a local of this type is the object of a parameter of a call, and a scalar.
fn is_passed_as(x: &Scene<'_>, local: u32, ty: TyId) -> bool
    ensures { result ≡ (kept.is_argument (locals_in x.now) local && places.is_scalar (type_of x.now.tables.now ty)) }
{
    is_argument(x, local) && is_scalar(x.tables, ty)
}

/// Whether a local of this type is an object of its own, which no reference is.
fn is_object_of(x: &Scene<'_>, local: u32, ty: TyId) -> bool
    ensures { result ≡ (not (kept.is_argument (locals_in x.now) local && places.is_scalar (type_of x.now.tables.now ty))
        && (not (places.is_reference (type_of x.now.tables.now ty)) && not (ready.is_code (type_of x.now.tables.now ty)))) }
{
    let passed = is_passed_as(x, local, ty);
    !passed && (!is_reference(x.tables, ty) && !is_code(x.tables, ty))
}

/// Whether it is a local of an object's type that is no reference, and no parameter's object of a call.
#[tactic(auto, using(crate::proofs::LocalTypes::object_there, crate::proofs::LocalTypes::object_missing))]
fn is_object_local(x: &Scene<'_>, local: u32) -> bool
    ensures { result ≡ leaf.is_object_local (locals_in x.now) local }
{
    match local_type(x, local) {
        Some(ty) => is_object_of(x, local, ty),
        None => false,
    }
}

/// Whether the type is a reference's, to no function's type with const.
#[tactic(auto, using(crate::proofs::LocalTypes::refers_some, crate::proofs::LocalTypes::refers_none))]
fn refers_well(x: &Scene<'_>, ty: TyId) -> bool
    ensures { result ≡ (places.is_reference (type_of x.now.tables.now ty) && leaf.const_on_none (kept.referred (type_of x.now.tables.now ty))) }
{
    match referred(x.tables, ty) {
        Some(target) => const_on_none(x.tables, target),
        None => false,
    }
}

/// Whether it is a local that is a reference.
#[tactic(auto, using(crate::proofs::LocalTypes::reference_there, crate::proofs::LocalTypes::reference_missing))]
fn is_reference_local(x: &Scene<'_>, local: u32) -> bool
    ensures { result ≡ leaf.is_reference_local (locals_in x.now) local }
{
    match local_type(x, local) {
        Some(ty) => refers_well(x, ty),
        None => false,
    }
}

/// Whether a name may stand for the local.
pub fn may_be_local(x: &Scene<'_>, local: u32) -> bool
    ensures { result ≡ (leaf.is_object_local (locals_in x.now) local || leaf.is_reference_local (locals_in x.now) local) }
{
    is_object_local(x, local) || is_reference_local(x, local)
}

/// Whether it is a local of this type, but for const.
#[tactic(auto, using(crate::proofs::LocalTypes::local_there, crate::proofs::LocalTypes::local_missing))]
pub fn is_local(x: &Scene<'_>, local: u32, ty: TyId) -> Result<bool, Memory>
    ensures { IfOk result (λ is. is ≡ leaf.is_local (locals_in x.now) local (type_of x.now.tables.now ty)) }
{
    match local_type(x, local) {
        Some(own) => {
            let same = same_bare(x.tables, ty, own)?;
            Ok(same)
        }
        None => Ok(false),
    }
}

/// Whether the local may begin as an object of this type.
#[tactic(auto, using(crate::proofs::LocalTypes::begins, crate::proofs::LocalTypes::begins_not))]
pub fn may_begin(x: &Scene<'_>, local: u32, ty: TyId) -> Result<bool, Memory>
    ensures { IfOk result (λ may. may ≡ leaf.may_begin (view_in x.now) local (type_of x.now.tables.now ty)) }
{
    if !is_local(x, local, ty)? {
        return Ok(false);
    }
    let laid = is_laid(x.tables, ty)?;
    Ok(laid)
}

/// Whether there is such a local.
#[tactic(auto, using(crate::proofs::LocalTypes::is_there, crate::proofs::LocalTypes::is_missing))]
fn has_local(x: &Scene<'_>, local: u32) -> bool
    ensures { result ≡ nat_lt local (length (locals_in x.now).types) }
{
    match local_type(x, local) {
        Some(_) => true,
        None => false,
    }
}

/// Whether the local may end as an object of this type.
pub fn may_finish(x: &Scene<'_>, ty: TyId, local: u32) -> bool
    ensures { result ≡ (nat_lt local (length (locals_in x.now).types) && layout.has_bytes (type_of x.now.tables.now ty)) }
{
    has_local(x, local) && has_bytes(x.tables, ty)
}

/// Whether objects of this type are scalars that the C has.
fn has_sort(x: &Scene<'_>, ty: TyId) -> bool
    ensures { result ≡ is_some (sorts.sort_of (type_of x.now.tables.now ty)) }
{
    match sort_of(x.tables, ty) {
        Some(_) => true,
        None => false,
    }
}

/// Whether a local of this type is the object of a parameter of calls, and a scalar that the C has.
fn is_passed_type(x: &Scene<'_>, local: u32, ty: TyId) -> bool
    ensures { result ≡ ((kept.is_argument (locals_in x.now) local && places.is_scalar (type_of x.now.tables.now ty)) && is_some (sorts.sort_of (type_of x.now.tables.now ty))) }
{
    is_passed_as(x, local, ty) && has_sort(x, ty)
}

/// Whether it is such a local.
#[tactic(auto, using(crate::proofs::LocalTypes::passed_there, crate::proofs::LocalTypes::passed_missing))]
fn is_passed(x: &Scene<'_>, local: u32) -> bool
    ensures { result ≡ calls.is_passed (locals_in x.now) local }
{
    match local_type(x, local) {
        Some(ty) => is_passed_type(x, local, ty),
        None => false,
    }
}

/// Whether a number is among others.
fn is_among(number: u32, others: &[u32]) -> bool
    ensures { result ≡ since.is_among number others.now }
{
    others.iter().any(|other| *other == number)
}

/// Whether it is such a local, and not among others.
fn is_passed_once(x: &Scene<'_>, local: u32, others: &[u32]) -> bool
    ensures { result ≡ (calls.is_passed (locals_in x.now) local && not (since.is_among local others.now)) }
{
    is_passed(x, local) && !is_among(local, others)
}

/// Whether they are such locals, each once.
#[tactic(auto, using(crate::proofs::Passing::none_left, crate::proofs::Passing::one_more, crate::proofs::Passing::one_fails))]
pub fn are_passed(x: &Scene<'_>, all: &[u32]) -> bool
    ensures { result ≡ calls.are_passed (locals_in x.now) all.now }
{
    let mut rest = all;
    while let Some((local, others)) = rest.split_first() {
        if !is_passed_once(x, *local, others) {
            return false;
        }
        rest = others;
    }
    true
}

/// The type of the local of this number; `void` if there is none.
#[tactic(auto, using(crate::proofs::LocalTypes::place_there, crate::proofs::LocalTypes::place_missing))]
fn local_place(x: &Scene<'_>, local: u32) -> PlaceType
    ensures { type_in x.now.tables.now result ≡ types.without_const (kept.type_of_local (locals_in x.now) local) }
{
    match local_type(x, local) {
        Some(ty) => PlaceType::Of(ty),
        None => PlaceType::Void,
    }
}

/// Whether the local has this type, which may differ in const.
fn has_type(x: &Scene<'_>, local: u32, ty: TyId) -> Result<bool, Memory>
    ensures { IfOk result (λ has. has ≡ types.same_but_const (kept.type_of_local (locals_in x.now) local) (type_of x.now.tables.now ty)) }
{
    let place = local_place(x, local);
    let same = same_places(x.tables, &place, &PlaceType::Of(ty))?;
    Ok(same)
}

/// Whether locals have these types, which may differ in const.
#[tactic(auto, using(crate::proofs::Passing::lengths_differ, crate::proofs::Passing::type_more, crate::proofs::Passing::type_fails, crate::proofs::Passing::types_all))]
pub fn have_types(x: &Scene<'_>, all: &[u32], types: &[TyId]) -> Result<bool, Memory>
    ensures { IfOk result (λ have. have ≡ calls.types_passed (locals_in x.now) all.now (map (type_of x.now.tables.now) types.now)) }
{
    if all.len() != types.len() {
        return Ok(false);
    }
    for i in 0..all.len() {
        if !has_type(x, all[i], types[i])? {
            return Ok(false);
        }
    }
    Ok(true)
}
