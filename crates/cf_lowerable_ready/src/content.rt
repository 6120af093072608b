//! What a register holds.

ghost use Rattle.std.specs.Prelude.{◌≡◌};
ghost use Rattle.cf_core.specs.FromTypes.{Tables as TablesOf};
ghost use Rattle.cf_core.specs.Types as types;
ghost use Rattle.cf_lower_types.specs.Bare.{type_in};
ghost use Rattle.cf_plain_kept.specs.Kept as definition;
ghost use Rattle.cf_lowerable_ready.specs.Contents as spec;
ghost use Rattle.cf_lowerable_ready.specs.Contents.{known};

use cf_lower_types::PlaceType;
use cf_lowerable_types::Kinds;
use cf_types::TyId;

/// The type of a place: one of the file's types, or one that a literal has.
#[derive(Clone, Copy, Debug, PartialEq, Eq)]
pub enum Place {
    Of(TyId),
    Character,
    /// An array of so many characters.
    Characters(u64),
}

/// The same without const.
pub fn place_of(place: &Place) -> PlaceType
    ensures { (tables : TablesOf) → type_in tables result ≡ types.without_const (spec.place_type tables place.now) }
{
    match place {
        Place::Of(id) => PlaceType::Of(*id),
        Place::Character => PlaceType::Character,
        Place::Characters(count) => PlaceType::Characters(*count),
    }
}

/// What a register holds behind the action that has set it.
#[derive(Clone, Copy, Debug, PartialEq, Eq)]
pub enum Content {
    /// Nothing: no action has set it that took what it found.
    Unset,
    /// What an action leaves that gives no value.
    NoValue,
    /// An integer that is a value of these types.
    Number(Kinds),
    /// A place of this type or a pointer to one; of a function's type, the function.
    Place(Place),
    /// A pointer to a member, of this type.
    Member(TyId),
    /// The object of the local of this number and type, which has no first value yet.
    Object(u32, TyId),
}

/// Whether it is an integer.
pub fn is_integer(content: &Content) -> bool
    ensures { (tables : TablesOf) → result ≡ definition.integer_in (known tables content.now) }
{
    match content {
        Content::Number(_) => true,
        Content::Unset
        | Content::NoValue
        | Content::Place(_)
        | Content::Member(_)
        | Content::Object(_, _) => false,
    }
}

/// Whether it is what an action leaves that gives no value.
pub fn is_no_value(content: &Content) -> bool
    ensures { (tables : TablesOf) → result ≡ spec.has_no_value (known tables content.now) }
{
    match content {
        Content::NoValue => true,
        Content::Unset
        | Content::Number(_)
        | Content::Place(_)
        | Content::Member(_)
        | Content::Object(_, _) => false,
    }
}
