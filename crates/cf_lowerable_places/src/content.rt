//! What a register holds.

ghost use Rattle.std.specs.Prelude.{◌≡◌, Some};
ghost use Rattle.std.specs.Option.{option_map};
ghost use Rattle.cf_core.specs.FromTypes.{Tables as TablesOf};
ghost use Rattle.cf_lower.specs.Kept as definition;
ghost use Rattle.cf_lower_held.specs.Holds.{kept_in};
ghost use Rattle.cf_lower_types.specs.Bare.{sort_in};
ghost use Rattle.cf_lowerable_types.specs.Kinds.{has_kind};
ghost use Rattle.cf_lowerable_places.specs.Contents.{known, restored};

use cf_lower_held::Held;
use cf_lower_types::{PlaceType, Scalar};
use cf_lowerable_types::{Kinds, all_kinds, kinds_within};
use cf_types::TyId;

/// What a register holds.
#[derive(Clone, Copy, Debug, PartialEq, Eq)]
pub enum Content {
    /// Nothing that is used.
    Nothing,
    /// An integer that is a value of these types.
    Number(Kinds),
    /// The address of a place of this type.
    Place(PlaceType),
    /// A function of this type.
    Code(TyId),
    /// The place of the object of a parameter of a call, a local of this number and type.
    Argument(u32, TyId),
}

/// What is held without the types of an integer, with them.
pub fn content_of(held: &Held, kinds: Kinds) -> Content
    ensures { (tables : TablesOf) → known tables result ≡ restored (kept_in tables held.now) (has_kind kinds) }
{
    match held {
        Held::Nothing => Content::Nothing,
        Held::Integer => Content::Number(kinds),
        Held::Place(id) => Content::Place(PlaceType::Of(*id)),
        Held::Void => Content::Place(PlaceType::Void),
        Held::Character => Content::Place(PlaceType::Character),
        Held::Characters(count) => Content::Place(PlaceType::Characters(*count)),
        Held::Code(id) => Content::Code(*id),
        Held::Argument(local, id) => Content::Argument(*local, *id),
    }
}

/// The types of the integer that a register holds, if it holds one.
pub fn kinds_in(content: &Content) -> Kinds
    ensures { (tables : TablesOf) → restored (known tables content.now) (has_kind result) ≡ known tables content.now }
{
    match content {
        Content::Number(kinds) => *kinds,
        Content::Nothing | Content::Place(_) | Content::Code(_) | Content::Argument(_, _) => {
            all_kinds()
        }
    }
}

/// The types of an integer that is read from a scalar of this sort, if it is one.
fn kinds_of_sort(scalar: &Scalar) -> Kinds
    ensures { (tables : TablesOf) → restored (definition.of_sort (Some (sort_in tables scalar.now))) (has_kind result) ≡ definition.of_sort (Some (sort_in tables scalar.now)) }
{
    match scalar {
        Scalar::Number(kind) => kinds_within(*kind),
        Scalar::Address(_) => all_kinds(),
        Scalar::Code(_) => all_kinds(),
    }
}

/// The types of an integer that is read from a scalar, if it holds one.
pub fn kinds_of_scalar(scalar: &Option<Scalar>) -> Kinds
    ensures { (tables : TablesOf) → restored (definition.of_sort (option_map (sort_in tables) scalar.now)) (has_kind result) ≡ definition.of_sort (option_map (sort_in tables) scalar.now) }
{
    match scalar {
        Some(scalar) => kinds_of_sort(scalar),
        None => all_kinds(),
    }
}
