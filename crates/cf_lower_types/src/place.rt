//! The types of places.

ghost use Rattle.std.specs.Prelude.{◌≡◌};
ghost use Rattle.std.specs.Option.{option_map};
ghost use Rattle.cf_core.specs.FromTypes.{type_of};
ghost use Rattle.cf_core.specs.Types.{element, plain};
ghost use Rattle.cf_lower_layout.specs.Sorts as sorts;
ghost use Rattle.cf_lower_types.specs.Bare.{sort_in, type_in};
ghost use Rattle.cf_lower_types.specs.Forms as spec;

use crate::form::{elements_in, form_of, under_const};
use crate::scalar::{Scalar, sort_of};
use crate::tables::Tables;
use cf_base::Kind;
use cf_types::{Ty, TyId};

/// The type of a place, without const: one of the unit's types, or one that a literal or a missing local has.
#[derive(Clone, Copy, Debug, PartialEq, Eq)]
pub enum PlaceType {
    Of(TyId),
    Void,
    Character,
    /// An array of so many characters.
    Characters(u64),
}

/// The type of the elements of an array; any other object alone counts as an array of one (5.7).
pub fn element_of(tables: &Tables<'_>, ty: PlaceType) -> PlaceType
    ensures { type_in tables.now result ≡ element (type_in tables.now ty) }
{
    match ty {
        PlaceType::Of(id) => element_at(tables, id),
        PlaceType::Void => PlaceType::Void,
        PlaceType::Character | PlaceType::Characters(_) => PlaceType::Character,
    }
}

/// The same of one of the unit's types.
#[tactic(auto, using(crate::proofs::Scalars::element_none, crate::proofs::Scalars::element_some))]
fn element_at(tables: &Tables<'_>, id: TyId) -> PlaceType
    ensures { type_in tables.now result ≡ element (type_in tables.now (PlaceType.Of id)) }
{
    let form = form_of(tables, id);
    match elements_in(&form) {
        Some(elements) => PlaceType::Of(elements.ty),
        None => PlaceType::Of(id),
    }
}

/// The type that an array has for its elements.
fn item_in(ty: &Ty) -> Option<TyId>
    ensures { result ≡ spec.item_in ty.now }
{
    match ty {
        Ty::Array(item, _) => Some(*item),
        Ty::Void
        | Ty::Int(_)
        | Ty::Enum(_)
        | Ty::Class(_)
        | Ty::Ptr(_)
        | Ty::Ref(_)
        | Ty::Fun(_)
        | Ty::MemData(_, _)
        | Ty::MemFun(_, _)
        | Ty::Const(_) => None,
    }
}

/// The type of this number without the const of its own.
#[tactic(auto, using(crate::proofs::Items::plain_const, crate::proofs::Items::plain_itself))]
fn plain_of(tables: &Tables<'_>, id: TyId) -> TyId
    ensures { type_of tables.now result ≡ plain (type_of tables.now id) }
{
    let ty = tables.entry(id);
    match under_const(&ty) {
        Some(inside) => inside,
        None => id,
    }
}

/// The type of an array's elements, with its const; any other object alone counts as an array of one (5.7).
#[tactic(auto, using(crate::proofs::Items::item_some, crate::proofs::Items::item_none))]
pub fn item_of(tables: &Tables<'_>, id: TyId) -> TyId
    ensures { type_of tables.now result ≡ element (plain (type_of tables.now id)) }
{
    let bare = plain_of(tables, id);
    let ty = tables.entry(bare);
    match item_in(&ty) {
        Some(item) => item,
        None => bare,
    }
}

/// What the scalar at a place is, if an object of this type is one.
#[tactic(auto, using(crate::proofs::Scalars::sort_by_bare))]
pub fn place_scalar(tables: &Tables<'_>, ty: PlaceType) -> Option<Scalar>
    ensures { option_map (sort_in tables.now) result ≡ sorts.sort_of (type_in tables.now ty) }
{
    match ty {
        PlaceType::Of(id) => sort_of(tables, id),
        PlaceType::Void | PlaceType::Characters(_) => None,
        PlaceType::Character => Some(Scalar::Number(Kind::Char)),
    }
}
