//! What a register holds that holds this or that.

ghost use Rattle.std.specs.Prelude.{◌≡◌, IfOk};
ghost use Rattle.cf_core.specs.FromTypes.{Tables as TablesOf};
ghost use Rattle.cf_lower.specs.Kept as definition;
ghost use Rattle.cf_lower_layout.specs.Sorts.{address};
ghost use Rattle.cf_lower_types.specs.Bare.{type_in};
ghost use Rattle.cf_lower_held.specs.Holds.{kept_in};
ghost use Rattle.cf_lower_held.specs.declared.held.Held.TheVariants as held;

use crate::held::{Held, of_place, place_in};
use cf_base::Memory;
use cf_lower_same::{same_bare, same_exactly, same_places};
use cf_lower_types::{PlaceType, Tables};
use cf_types::TyId;

/// What a register holds that holds this or that.
#[tactic(auto, using(crate::proofs::Meetings::nothing_both))]
pub fn both(tables: &Tables<'_>, a: &Held, b: &Held) -> Result<Held, Memory>
    ensures { IfOk result (λ h. kept_in tables.now h ≡ definition.both_kept (kept_in tables.now a.now) (kept_in tables.now b.now)) }
{
    match a {
        Held::Nothing => Ok(Held::Nothing),
        Held::Integer => Ok(both_integers(b)),
        Held::Place(id) => {
            let made = both_places(tables, &PlaceType::Of(*id), b)?;
            Ok(made)
        }
        Held::Void => {
            let made = both_places(tables, &PlaceType::Void, b)?;
            Ok(made)
        }
        Held::Character => {
            let made = both_places(tables, &PlaceType::Character, b)?;
            Ok(made)
        }
        Held::Characters(count) => {
            let made = both_places(tables, &PlaceType::Characters(*count), b)?;
            Ok(made)
        }
        Held::Code(ty) => {
            let made = both_functions(tables, *ty, b)?;
            Ok(made)
        }
        Held::Argument(local, ty) => {
            let made = both_arguments(tables, *local, *ty, b)?;
            Ok(made)
        }
    }
}

/// Where the first is an integer.
fn both_integers(b: &Held) -> Held
    ensures { (tables : TablesOf) → kept_in tables result ≡ definition.both_kept (kept_in tables held.Integer) (kept_in tables b.now) }
{
    match b {
        Held::Integer => Held::Integer,
        Held::Nothing
        | Held::Place(_)
        | Held::Void
        | Held::Character
        | Held::Characters(_)
        | Held::Code(_)
        | Held::Argument(_, _) => Held::Nothing,
    }
}

/// Where the first is the address of a place.
#[tactic(auto, using(crate::proofs::Meetings::places_same, crate::proofs::Meetings::places_differ, crate::proofs::Meetings::no_place))]
fn both_places(tables: &Tables<'_>, place: &PlaceType, b: &Held) -> Result<Held, Memory>
    ensures { IfOk result (λ h. kept_in tables.now h ≡ definition.both_kept (definition.holds (address (type_in tables.now place.now))) (kept_in tables.now b.now)) }
{
    match place_in(b) {
        Some(other) => {
            if same_places(tables, place, &other)? {
                Ok(of_place(place))
            } else {
                Ok(Held::Nothing)
            }
        }
        None => Ok(Held::Nothing),
    }
}

/// Where the first is a function.
#[tactic(auto, using(crate::proofs::Meetings::chosen_same, crate::proofs::Meetings::chosen_other))]
fn both_functions(tables: &Tables<'_>, ty: TyId, b: &Held) -> Result<Held, Memory>
    ensures { IfOk result (λ h. kept_in tables.now h ≡ definition.both_kept (kept_in tables.now (held.Code ty)) (kept_in tables.now b.now)) }
{
    match b {
        Held::Code(other) => {
            if same_bare(tables, ty, *other)? {
                Ok(Held::Code(ty))
            } else {
                Ok(Held::Nothing)
            }
        }
        Held::Nothing
        | Held::Integer
        | Held::Place(_)
        | Held::Void
        | Held::Character
        | Held::Characters(_)
        | Held::Argument(_, _) => Ok(Held::Nothing),
    }
}

/// Where the first is the place of an argument's object.
#[tactic(auto, using(crate::proofs::Meetings::arguments_same, crate::proofs::Meetings::arguments_differ, crate::proofs::Meetings::other_argument))]
fn both_arguments(tables: &Tables<'_>, local: u32, ty: TyId, b: &Held) -> Result<Held, Memory>
    ensures { IfOk result (λ h. kept_in tables.now h ≡ definition.both_kept (kept_in tables.now (held.Argument local ty)) (kept_in tables.now b.now)) }
{
    match b {
        Held::Argument(other, with) => {
            if local != *other {
                return Ok(Held::Nothing);
            }
            if same_exactly(tables, ty, *with)? {
                Ok(Held::Argument(local, ty))
            } else {
                Ok(Held::Nothing)
            }
        }
        Held::Nothing
        | Held::Integer
        | Held::Place(_)
        | Held::Void
        | Held::Character
        | Held::Characters(_)
        | Held::Code(_) => Ok(Held::Nothing),
    }
}
