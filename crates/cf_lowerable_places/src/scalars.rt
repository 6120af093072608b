//! What scalars take of what registers hold.

ghost use Rattle.std.specs.Prelude.{◌≡◌, ◌||◌, Some, IfOk};
ghost use Rattle.std.specs.Option.{option_map};
ghost use Rattle.cf_core.specs.FromTypes.{Tables as TablesOf, type_of};
ghost use Rattle.cf_core.specs.Types as types;
ghost use Rattle.cf_lower_layout.specs.Sorts as sorts;
ghost use Rattle.cf_lower_layout.specs.Sorts.{address, code};
ghost use Rattle.cf_lower.specs.Kept.{argument};
ghost use Rattle.cf_lower_held.specs.Scenes.{locals_in};
ghost use Rattle.cf_lower_place.specs.Leaf as leaf;
ghost use Rattle.cf_lower_types.specs.Bare.{bare, sort_in, type_in};
ghost use Rattle.cf_lowerable_places.specs.Contents.{known};

use crate::content::Content;
use crate::locals::is_local;
use cf_base::{Kind, Memory};
use cf_lower_held::Scene;
use cf_lower_same::{same_bare, same_places};
use cf_lower_types::{PlaceType, Scalar, Tables, place_scalar, sort_of};
use cf_types::TyId;

/// Whether a scalar of this integer type takes what a register holds.
fn number_takes(kind: Kind, content: &Content) -> bool
    ensures { (tables : TablesOf) → result ≡ leaf.may_hold (Some (sorts.number kind)) (known tables content.now) }
{
    match content {
        Content::Number(kinds) => kinds.has(kind),
        Content::Nothing | Content::Place(_) | Content::Code(_) | Content::Argument(_, _) => false,
    }
}

/// Whether a pointer to places of this type takes it.
fn address_takes(tables: &Tables<'_>, place: &PlaceType, content: &Content) -> Result<bool, Memory>
    ensures { IfOk result (λ takes. takes ≡ leaf.may_hold (Some (address (type_in tables.now place.now))) (known tables.now content.now)) }
{
    match content {
        Content::Place(other) => {
            let same = same_places(tables, place, other)?;
            Ok(same)
        }
        Content::Nothing => Ok(false),
        Content::Number(_) => Ok(false),
        Content::Code(_) => Ok(false),
        Content::Argument(_, _) => Ok(false),
    }
}

/// Whether a pointer to functions of this type takes it.
fn code_takes(tables: &Tables<'_>, ty: TyId, content: &Content) -> Result<bool, Memory>
    ensures { IfOk result (λ takes. takes ≡ leaf.may_hold (Some (code (bare tables.now ty))) (known tables.now content.now)) }
{
    match content {
        Content::Code(other) => {
            let same = same_bare(tables, ty, *other)?;
            Ok(same)
        }
        Content::Nothing => Ok(false),
        Content::Number(_) => Ok(false),
        Content::Place(_) => Ok(false),
        Content::Argument(_, _) => Ok(false),
    }
}

/// Whether a scalar takes what a register holds, if it is one.
pub fn may_hold(
    tables: &Tables<'_>,
    scalar: &Option<Scalar>,
    content: &Content,
) -> Result<bool, Memory>
    ensures { IfOk result (λ may. may ≡ leaf.may_hold (option_map (sort_in tables.now) scalar.now) (known tables.now content.now)) }
{
    match scalar {
        None => Ok(false),
        Some(Scalar::Number(kind)) => Ok(number_takes(*kind, content)),
        Some(Scalar::Address(place)) => {
            let takes = address_takes(tables, place, content)?;
            Ok(takes)
        }
        Some(Scalar::Code(ty)) => {
            let takes = code_takes(tables, *ty, content)?;
            Ok(takes)
        }
    }
}

/// Whether a place takes a value.
pub fn may_store(tables: &Tables<'_>, place: &Content, value: &Content) -> Result<bool, Memory>
    ensures { IfOk result (λ may. may ≡ leaf.may_store (known tables.now place.now) (known tables.now value.now)) }
{
    match place {
        Content::Place(ty) => {
            let may = may_hold(tables, &place_scalar(tables, *ty), value)?;
            Ok(may)
        }
        Content::Nothing => Ok(false),
        Content::Number(_) => Ok(false),
        Content::Code(_) => Ok(false),
        Content::Argument(_, _) => Ok(false),
    }
}

/// Whether the object of a parameter of a call takes a value.
#[tactic(auto, using(crate::proofs::ScalarLaws::passes, crate::proofs::ScalarLaws::passes_not))]
fn may_pass(x: &Scene<'_>, local: u32, ty: TyId, value: &Content) -> Result<bool, Memory>
    ensures { IfOk result (λ may. may ≡ leaf.may_first (locals_in x.now) (argument local (type_of x.now.tables.now ty)) (known x.now.tables.now value.now)) }
{
    if !is_local(x, local, ty)? {
        return Ok(false);
    }
    let may = may_hold(x.tables, &sort_of(x.tables, ty), value)?;
    Ok(may)
}

/// Whether a place, or the object of a parameter of a call, takes a first value.
pub fn may_first(x: &Scene<'_>, place: &Content, value: &Content) -> Result<bool, Memory>
    ensures { IfOk result (λ may. may ≡ leaf.may_first (locals_in x.now) (known x.now.tables.now place.now) (known x.now.tables.now value.now)) }
{
    match place {
        Content::Argument(local, ty) => {
            let may = may_pass(x, *local, *ty, value)?;
            Ok(may)
        }
        Content::Place(_) => {
            let may = may_store(x.tables, place, value)?;
            Ok(may)
        }
        Content::Nothing => Ok(false),
        Content::Number(_) => Ok(false),
        Content::Code(_) => Ok(false),
    }
}

/// Whether what a register holds is converted to a pointer to places of this type (4).
#[tactic(auto, using(crate::proofs::ScalarLaws::to_void, crate::proofs::ScalarLaws::to_same))]
fn to_address(tables: &Tables<'_>, place: &PlaceType, from: &PlaceType) -> Result<bool, Memory>
    ensures { IfOk result (λ may. may ≡ (types.type_eq (type_in tables.now place.now) types.void || types.type_eq (type_in tables.now from.now) (type_in tables.now place.now))) }
{
    if same_places(tables, place, &PlaceType::Void)? {
        return Ok(true);
    }
    let same = same_places(tables, from, place)?;
    Ok(same)
}

/// The same of any register.
fn may_be_address(tables: &Tables<'_>, place: &PlaceType, content: &Content) -> Result<bool, Memory>
    ensures { IfOk result (λ may. may ≡ leaf.may_convert (Some (address (type_in tables.now place.now))) (known tables.now content.now)) }
{
    match content {
        Content::Number(_) => Ok(true),
        Content::Place(from) => {
            let may = to_address(tables, place, from)?;
            Ok(may)
        }
        Content::Nothing => Ok(false),
        Content::Code(_) => Ok(false),
        Content::Argument(_, _) => Ok(false),
    }
}

/// Whether what a register holds is converted to a pointer to functions of this type.
fn may_be_code(tables: &Tables<'_>, ty: TyId, content: &Content) -> Result<bool, Memory>
    ensures { IfOk result (λ may. may ≡ leaf.may_convert (Some (code (bare tables.now ty))) (known tables.now content.now)) }
{
    match content {
        Content::Number(_) => Ok(true),
        Content::Code(from) => {
            let same = same_bare(tables, *from, ty)?;
            Ok(same)
        }
        Content::Nothing => Ok(false),
        Content::Place(_) => Ok(false),
        Content::Argument(_, _) => Ok(false),
    }
}

/// Whether what a register holds is converted to an integer type.
fn may_be_number(kind: Kind, content: &Content) -> bool
    ensures { (tables : TablesOf) → result ≡ leaf.may_convert (Some (sorts.number kind)) (known tables content.now) }
{
    let _kind = kind;
    match content {
        Content::Number(_) => true,
        Content::Nothing | Content::Place(_) | Content::Code(_) | Content::Argument(_, _) => false,
    }
}

/// Whether what a register holds is converted to a scalar, if it is one.
pub fn may_convert(
    tables: &Tables<'_>,
    scalar: &Option<Scalar>,
    content: &Content,
) -> Result<bool, Memory>
    ensures { IfOk result (λ may. may ≡ leaf.may_convert (option_map (sort_in tables.now) scalar.now) (known tables.now content.now)) }
{
    match scalar {
        None => Ok(false),
        Some(Scalar::Number(kind)) => Ok(may_be_number(*kind, content)),
        Some(Scalar::Address(place)) => {
            let may = may_be_address(tables, place, content)?;
            Ok(may)
        }
        Some(Scalar::Code(ty)) => {
            let may = may_be_code(tables, *ty, content)?;
            Ok(may)
        }
    }
}
