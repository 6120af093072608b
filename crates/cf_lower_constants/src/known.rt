//! What a register holds.

ghost use Rattle.std.specs.Prelude.{◌≡◌, List, Some, IfOk};
ghost use Rattle.std.specs.Option.{option_map};
ghost use Rattle.cf_core.specs.Classes.{Class};
ghost use Rattle.cf_core.specs.FromTypes.{Tables as TablesOf};
ghost use Rattle.cf_core.specs.Types.{Name as NameOf, SourceType};
ghost use Rattle.cf_lower.specs.Constants as definition;
ghost use Rattle.cf_lower_layout.specs.Sorts.{address, code, number};
ghost use Rattle.cf_lower_types.specs.Bare.{sort_in, type_in};
ghost use Rattle.cf_lower_constants.specs.Knowing as spec;
ghost use Rattle.cf_lower_constants.specs.Knowing.{fact_in, known_in, target_in};
ghost use Rattle.cf_lower_constants.specs.declared.known.Target.{Target as TargetOf};

use cf_base::{Items, Kind, Memory, Name};
use cf_lower_types::{PlaceType, Scalar};
use cf_types::{TyId, convert_int};
use std::alloc::Global;

/// The type of a place: one of the unit's types with its const, or one without, or one that a literal has.
#[derive(Clone, Copy)]
pub enum Target {
    Exactly(TyId),
    Bare(TyId),
    Void,
    Character,
    /// An array of so many characters.
    Characters(u64),
}

/// What a register holds, without the type and the name of what it is of.
#[derive(Clone, Copy)]
pub enum Fact {
    Nothing,
    Number(i64),
    Null,
    /// A place so many bytes behind the start of an object.
    Place(u64),
    Function,
}

/// What a register holds.
#[derive(Drop)]
pub struct Known {
    pub fact: Fact,
    /// The type of a place.
    pub target: Target,
    /// Of an object or a function.
    pub name: Name,
}

/// The same in a value of its own.
pub(crate) fn copied(alloc: Global, known: &Known) -> Result<Known, Memory>
    ensures { IfOk result (λ made. made ≡ known.now) }
{
    let name = Items::from_slice(alloc, known.name.as_slice())?;
    Ok(Known {
        fact: known.fact,
        target: known.target,
        name,
    })
}

/// What is known of nothing that has a name.
pub(crate) fn nameless(alloc: Global, fact: Fact) -> Known
    ensures { result ≡ spec.nameless fact }
{
    Known {
        fact,
        target: Target::Void,
        name: Items::new(alloc),
    }
}

/// The type of a place.
pub(crate) fn target_of(ty: &PlaceType) -> Target
    ensures { (tables : TablesOf) → target_in tables result ≡ type_in tables ty.now }
{
    match ty {
        PlaceType::Of(id) => Target::Bare(*id),
        PlaceType::Void => Target::Void,
        PlaceType::Character => Target::Character,
        PlaceType::Characters(count) => Target::Characters(*count),
    }
}

/// Whether it is neither 0 nor null, where that is known (4.1, 5.3).
#[tactic(auto, using(crate::proofs::Truths::zero_is_false, crate::proofs::Truths::other_is_true))]
pub(crate) fn truth(fact: &Fact) -> Option<bool>
    ensures { result ≡ spec.fact_truth fact.now }
{
    match fact {
        Fact::Nothing => None,
        Fact::Number(number) => {
            if *number == 0 {
                Some(false)
            } else {
                Some(true)
            }
        }
        Fact::Null => Some(false),
        Fact::Place(_) | Fact::Function => Some(true),
    }
}

/// A truth, as a number.
pub(crate) fn of_truth(truth: Option<bool>) -> Fact
    ensures { result ≡ spec.truth_fact truth }
{
    match truth {
        None => Fact::Nothing,
        Some(holds) => {
            if holds {
                Fact::Number(1)
            } else {
                Fact::Number(0)
            }
        }
    }
}

/// The other truth.
pub(crate) fn inverted(truth: Option<bool>) -> Option<bool>
    ensures { result ≡ definition.inverted truth }
{
    match truth {
        None => None,
        Some(truth) => Some(!truth),
    }
}

/// What is known as an address or a function: a number is the constant 0, which is null.
fn pointer_to(fact: &Fact) -> Fact
    ensures address { (tables : TablesOf) (cs : List Class) (t u : TargetOf) (n : NameOf) → fact_in tables result t n ≡ definition.converted_known cs (Some (address (target_in tables t))) (fact_in tables fact.now u n) }
    ensures code { (tables : TablesOf) (cs : List Class) (s : SourceType) (t : TargetOf) (n : NameOf) → fact_in tables result t n ≡ definition.converted_known cs (Some (code s)) (fact_in tables fact.now t n) }
{
    match fact {
        Fact::Number(_) | Fact::Null => Fact::Null,
        Fact::Nothing => Fact::Nothing,
        Fact::Place(at) => Fact::Place(*at),
        Fact::Function => Fact::Function,
    }
}

/// What is known as a number of a kind.
fn number_to(kind: Kind, fact: &Fact) -> Fact
    ensures { (tables : TablesOf) (cs : List Class) (t : TargetOf) (n : NameOf) → fact_in tables result t n ≡ definition.converted_known cs (Some (number kind)) (fact_in tables fact.now t n) }
{
    match fact {
        Fact::Number(number) => Fact::Number(convert_int(*number, kind)),
        Fact::Null => Fact::Null,
        Fact::Nothing => Fact::Nothing,
        Fact::Place(at) => Fact::Place(*at),
        Fact::Function => Fact::Function,
    }
}

/// What is known as an address of this type: 0 is null, and a place is one of it.
pub(crate) fn as_address(target: Target, known: Known) -> Known
    ensures { (tables : TablesOf) (cs : List Class) → known_in tables result ≡ definition.converted_known cs (Some (address (target_in tables target))) (known_in tables known) }
{
    Known {
        fact: pointer_to(&known.fact),
        target,
        name: known.name,
    }
}

/// The same as a function.
fn as_code(known: Known) -> Known
    ensures { (tables : TablesOf) (cs : List Class) (s : SourceType) → known_in tables result ≡ definition.converted_known cs (Some (code s)) (known_in tables known) }
{
    Known {
        fact: pointer_to(&known.fact),
        target: known.target,
        name: known.name,
    }
}

/// The same as a number of a kind.
fn as_number(kind: Kind, known: Known) -> Known
    ensures { (tables : TablesOf) (cs : List Class) → known_in tables result ≡ definition.converted_known cs (Some (number kind)) (known_in tables known) }
{
    Known {
        fact: number_to(kind, &known.fact),
        target: known.target,
        name: known.name,
    }
}

/// What is known as a scalar of this sort (4).
fn converted_to(to: &Scalar, known: Known) -> Known
    ensures { (tables : TablesOf) (cs : List Class) → known_in tables result ≡ definition.converted_known cs (Some (sort_in tables to.now)) (known_in tables known) }
{
    match to {
        Scalar::Number(kind) => as_number(*kind, known),
        Scalar::Address(place) => as_address(target_of(place), known),
        Scalar::Code(_) => as_code(known),
    }
}

/// The same where it may be none.
pub(crate) fn converted(to: &Option<Scalar>, known: Known) -> Known
    ensures { (tables : TablesOf) (cs : List Class) → known_in tables result ≡ definition.converted_known cs (option_map (sort_in tables) to.now) (known_in tables known) }
{
    match to {
        None => known,
        Some(scalar) => converted_to(scalar, known),
    }
}
