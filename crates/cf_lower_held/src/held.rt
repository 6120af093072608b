//! What a register holds.

ghost use Rattle.std.specs.Prelude.{◌≡◌};
ghost use Rattle.std.specs.Option.{option_map};
ghost use Rattle.cf_core.specs.FromTypes.{Tables as TablesOf, type_of};
ghost use Rattle.cf_lower.specs.Kept as definition;
ghost use Rattle.cf_lower_layout.specs.Sorts.{address};
ghost use Rattle.cf_lower_types.specs.Bare.{sort_in, type_in};
ghost use Rattle.cf_lower_held.specs.Holds as spec;
ghost use Rattle.cf_lower_held.specs.Holds.{erased, kept_in};

use cf_lower_types::{PlaceType, Scalar};
use cf_types::TyId;

/// What a register holds.
#[derive(Clone, Copy, Debug, PartialEq, Eq)]
pub enum Held {
    /// Nothing that is used.
    Nothing,
    Integer,
    /// The address of a place of one of the file's types.
    Place(TyId),
    /// The address of a place of type `void`.
    Void,
    /// The address of a character.
    Character,
    /// The address of an array of so many characters.
    Characters(u64),
    /// A function of this type.
    Code(TyId),
    /// The place of the object of a parameter of a call, a local of this number and type.
    Argument(u32, TyId),
}

/// The address of a place of this type.
pub fn of_place(ty: &PlaceType) -> Held
    ensures { (tables : TablesOf) → kept_in tables result ≡ definition.holds (address (type_in tables ty.now)) }
{
    match ty {
        PlaceType::Of(id) => Held::Place(*id),
        PlaceType::Void => Held::Void,
        PlaceType::Character => Held::Character,
        PlaceType::Characters(count) => Held::Characters(*count),
    }
}

/// What a register holds that this scalar is put into.
pub fn of_one(scalar: &Scalar) -> Held
    ensures { (tables : TablesOf) → kept_in tables result ≡ spec.holding_one (sort_in tables scalar.now) }
{
    match scalar {
        Scalar::Number(_) => Held::Integer,
        Scalar::Address(place) => of_place(place),
        Scalar::Code(ty) => Held::Code(*ty),
    }
}

/// What a register holds that such a scalar is put into, if it is one.
#[tactic(auto, using(crate::proofs::Erased::erased_one))]
pub fn of_scalar(given: &Option<Scalar>) -> Held
    ensures { (tables : TablesOf) → kept_in tables result ≡ erased (definition.of_sort (option_map (sort_in tables) given.now)) }
{
    match given {
        None => Held::Nothing,
        Some(scalar) => of_one(scalar),
    }
}

/// The type of the place whose address a register holds.
pub fn place_in(kept: &Held) -> Option<PlaceType>
    ensures { (tables : TablesOf) → option_map (type_in tables) result ≡ spec.place_type (kept_in tables kept.now) }
{
    match kept {
        Held::Place(id) => Some(PlaceType::Of(*id)),
        Held::Void => Some(PlaceType::Void),
        Held::Character => Some(PlaceType::Character),
        Held::Characters(count) => Some(PlaceType::Characters(*count)),
        Held::Nothing | Held::Integer | Held::Code(_) | Held::Argument(_, _) => None,
    }
}

/// Whether a register holds a function.
pub fn holds_function(kept: &Held) -> bool
    ensures { (tables : TablesOf) → result ≡ spec.is_function (kept_in tables kept.now) }
{
    match kept {
        Held::Code(_) => true,
        Held::Nothing
        | Held::Integer
        | Held::Place(_)
        | Held::Void
        | Held::Character
        | Held::Characters(_)
        | Held::Argument(_, _) => false,
    }
}

/// Whether a register holds an integer.
pub fn holds_integer(kept: &Held) -> bool
    ensures { (tables : TablesOf) → result ≡ spec.is_integer (kept_in tables kept.now) }
{
    match kept {
        Held::Integer => true,
        Held::Nothing
        | Held::Place(_)
        | Held::Void
        | Held::Character
        | Held::Characters(_)
        | Held::Code(_)
        | Held::Argument(_, _) => false,
    }
}

/// A local that is the object of a parameter of a call.
#[derive(Clone, Copy, Debug, PartialEq, Eq)]
pub struct Argument {
    pub local: u32,
    pub ty: TyId,
}

/// The local whose place a register holds, where it is the object of a parameter of a call.
pub fn argument_in(kept: &Held) -> Option<Argument>
    ensures { (tables : TablesOf) → option_map (λ a. (a.local, type_of tables a.ty)) result ≡ spec.argument_of (kept_in tables kept.now) }
{
    match kept {
        Held::Argument(local, ty) => Some(Argument {
            local: *local,
            ty: *ty,
        }),
        Held::Nothing
        | Held::Integer
        | Held::Place(_)
        | Held::Void
        | Held::Character
        | Held::Characters(_)
        | Held::Code(_) => None,
    }
}
