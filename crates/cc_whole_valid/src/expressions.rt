ghost use Rattle.std.specs.Prelude.{◌≡◌};
ghost use Rattle.cc_whole.specs.Plain.{place_of, expression_of};
ghost use Rattle.cc_whole.specs.Known as known;
ghost use Rattle.cc_whole.specs.Typed as typed;
ghost use Rattle.cc_whole_valid.specs.Memory.{meant};
ghost use Rattle.cc_whole_valid.specs.Typing as spec;
ghost use Rattle.cc_whole_valid.specs.Walk.{Walks};

use crate::constants::{constant_type, fits_constant, is_zero_constant};
use crate::landmarks::{pass, type_marks};
use crate::scope::{Entity, Scope};
use crate::stop::Stop;
use crate::types::{
    binary_type, is_integer, is_pointer, may_cast, may_stand_left, prefix_type, stored_type,
    value_type,
};
use cc_whole::{CConstant, CExpression, CPlace, CType};

pub fn is_main(name: &[u8]) -> bool
    ensures { result ≡ known.is_main name.now }
{
    name == b"main".as_slice()
}

/// Whether an expression is the constant 0.
pub fn is_zero(e: &CExpression) -> bool
    ensures { result ≡ typed.is_zero (expression_of e.now) }
{
    match e {
        CExpression::Constant(c) => is_zero_constant(*c),
        _ => false,
    }
}

/// Goes past a name or number of this type.
#[tactic(auto, unfolding(crate::specs::Typing::past_one))]
fn pass_one(at: &mut usize, t: CType) -> Result<CType, Stop>
    ensures { Walks (spec.past_one t at.old) result at.new }
{
    pass(at, 1)?;
    Ok(t)
}

#[tactic(auto, unfolding(crate::specs::Typing::constant_at))]
fn constant_at(at: &mut usize, c: CConstant) -> Result<CType, Stop>
    ensures { Walks (spec.constant_at c at.old) result at.new }
{
    if !fits_constant(c) {
        return Err(Stop::Broken {
            rule: 11,
            place: *at,
        });
    }
    pass_one(at, constant_type(c))
}

/// The type of a name's value.
#[tactic(auto, unfolding(crate::specs::Typing::name_at))]
fn name_at(at: &mut usize, name: &[u8], found: Option<Entity<'_>>) -> Result<CType, Stop>
    ensures { Walks (spec.name_at name.now (meant found.entry) at.old) result at.new }
{
    match found {
        None => Err(Stop::Broken {
            rule: 1,
            place: *at,
        }),
        Some(Entity::Function(_)) => {
            if is_main(name) {
                return Err(Stop::Broken {
                    rule: 10,
                    place: *at,
                });
            }
            pass_one(at, CType::FunctionPointer)
        }
        Some(Entity::Object(t)) => pass_one(at, value_type(t)),
    }
}

/// The type of the address of a name.
#[tactic(auto, unfolding(crate::specs::Typing::addressed))]
fn addressed(at: &mut usize, found: Option<Entity<'_>>) -> Result<CType, Stop>
    ensures { Walks (spec.addressed (meant found.entry) at.old) result at.new }
{
    match found {
        None => Err(Stop::Broken {
            rule: 1,
            place: *at,
        }),
        Some(Entity::Function(_)) => Err(Stop::Broken {
            rule: 3,
            place: *at,
        }),
        Some(Entity::Object(_)) => pass_one(at, CType::Pointer),
    }
}

/// The type of an expression where these names are in scope, or its first fault.
#[cycle(types)]
pub fn type_from(names: &Scope<'_>, at: &mut usize, e: &CExpression) -> Result<CType, Stop>
    ensures { Walks (spec.type_from (expression_of e.now) names.now at.old) result at.new }
{
    match e {
        CExpression::Constant(c) => constant_at(at, *c),
        CExpression::Load(place) => type_at(names, at, place),
        CExpression::Unary(op, e) => {
            let place = *at;
            let t = type_from(names, at, e.get())?;
            if !is_integer(t) {
                return Err(Stop::Broken { rule: 3, place });
            }
            Ok(prefix_type(*op, t))
        }
        CExpression::Cast(to, e) => {
            pass(at, type_marks(*to))?;
            let place = *at;
            let t = type_from(names, at, e.get())?;
            if !may_cast(*to, t, is_zero(e.get())) {
                return Err(Stop::Broken { rule: 3, place });
            }
            Ok(*to)
        }
        CExpression::AddressOf(name) => {
            pass(at, 1)?;
            addressed(at, names.find(name.as_slice()))
        }
        CExpression::Binary(op, a, b) => {
            let place = *at;
            let left = type_from(names, at, a.get())?;
            if !may_stand_left(*op, left) {
                return Err(Stop::Broken { rule: 3, place });
            }
            let behind = *at;
            let right = type_from(names, at, b.get())?;
            match binary_type(*op, left, is_zero(a.get()), right, is_zero(b.get())) {
                Some(t) => Ok(t),
                None => Err(Stop::Broken {
                    rule: 3,
                    place: behind,
                }),
            }
        }
    }
}

/// The type of the value that stands at a place.
#[cycle(types)]
fn type_at(names: &Scope<'_>, at: &mut usize, place: &CPlace) -> Result<CType, Stop>
    ensures { Walks (spec.type_at (place_of place.now) names.now at.old) result at.new }
{
    match place {
        CPlace::Name(name) => name_at(at, name.as_slice(), names.find(name.as_slice())),
        CPlace::At(to, e) => {
            pass(at, type_marks(*to))?;
            let place = *at;
            let t = type_from(names, at, e.get())?;
            if !is_pointer(t) {
                return Err(Stop::Broken { rule: 3, place });
            }
            Ok(*to)
        }
    }
}

#[tactic(auto, unfolding(crate::specs::Typing::stored_by))]
fn stored_by(at: &mut usize, stored: Option<CType>) -> Result<CType, Stop>
    ensures { Walks (spec.stored_by stored at.old) result at.new }
{
    match stored {
        None => Err(Stop::Broken {
            rule: 3,
            place: *at,
        }),
        Some(t) => pass_one(at, t),
    }
}

/// The type of what may be stored in what a name means.
#[tactic(auto, unfolding(crate::specs::Typing::target_of_name))]
fn target_of_name(at: &mut usize, found: Option<Entity<'_>>) -> Result<CType, Stop>
    ensures { Walks (spec.target_of_name (meant found.entry) at.old) result at.new }
{
    match found {
        None => Err(Stop::Broken {
            rule: 1,
            place: *at,
        }),
        Some(Entity::Function(_)) => Err(Stop::Broken {
            rule: 3,
            place: *at,
        }),
        Some(Entity::Object(t)) => stored_by(at, stored_type(t)),
    }
}

/// The type of what may be stored at a place, or the first fault.
pub fn target_from(names: &Scope<'_>, at: &mut usize, place: &CPlace) -> Result<CType, Stop>
    ensures { Walks (spec.target_from (place_of place.now) names.now at.old) result at.new }
{
    match place {
        CPlace::Name(name) => target_of_name(at, names.find(name.as_slice())),
        CPlace::At(to, e) => {
            pass(at, type_marks(*to))?;
            let place = *at;
            let t = type_from(names, at, e.get())?;
            if !is_pointer(t) {
                return Err(Stop::Broken { rule: 3, place });
            }
            Ok(*to)
        }
    }
}
