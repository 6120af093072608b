ghost use Rattle.std.specs.Prelude.{◌≡◌, [], IfOk, IfSome, Option, option_map};
ghost use Rattle.cf_core.specs.Places.{Route, type_at};
ghost use Rattle.cf_core.specs.Store.{Value as Val, zero_of};
ghost use Rattle.cf_core.specs.Types.{SourceType};
ghost use Rattle.cf_core_place.specs.Routes.{route_of};
ghost use Rattle.cf_core_objects.specs.declared.object.Held.TheVariants as entry;
ghost use Rattle.cf_core_objects.specs.Log.{value_of, noted, logged, Newest, IsNewest, IsValue, touches as its_touches};

use crate::answer::Value;
use crate::object::Held;
use cf_core_place::{Part, lies_in, same_part};
use std::alloc::AllocError;

/// Whether an entry says what a part holds.
fn touches(entry: &Held<'_>, part: Part) -> bool
    ensures { result ≡ its_touches entry.now part }
{
    match entry {
        Held::Value(at, _) => same_part(part, *at),
        Held::Zeros(at) => lies_in(part, *at),
    }
}

/// The number of the newest entry that says what a part holds.
fn newest(log: &[Held<'_>], part: Part) -> Option<usize>
    ensures { Newest log.now part result }
{
    let mut left = log.len();
    while left > 0 {
        left -= 1;
        if touches(&log[left], part) {
            return Some(left);
        }
    }
    None
}

/// What a part holds, where zeroed storage holds this there, and the object held this at first.
pub fn value_at<'a>(
    log: &[Held<'a>],
    part: Part,
    zero: Value<'a>,
    first: Option<Value<'a>>,
) -> Option<Value<'a>>
    ensures { (t : SourceType) (old : Route → Option Val) → zero_of (type_at [] t (route_of part)) ≡ value_of zero.entry → old (route_of part) ≡ option_map value_of first.entry → logged t old log.now (route_of part) ≡ option_map value_of result }
{
    match newest(log, part) {
        None => first,
        Some(number) => match log[number] {
            Held::Value(_, value) => Some(value),
            Held::Zeros(_) => Some(zero),
        },
    }
}

/// The number of the newest entry that says what a part holds, if it says so by a value.
fn replaced(log: &[Held<'_>], part: Part) -> Option<usize>
    ensures { IfSome result (λ i. IsValue log.now part i) }
{
    match newest(log, part) {
        None => None,
        Some(number) => match log[number] {
            Held::Value(_, _) => Some(number),
            Held::Zeros(_) => None,
        },
    }
}

/// A part gets a value.
pub fn note<'a>(log: &mut Vec<Held<'a>>, part: Part, value: Value<'a>) -> Result<(), AllocError>
    ensures { IfOk result (λ u. (t : SourceType) (old : Route → Option Val) (π : Route) → logged t old log.new.items π ≡ noted t (entry.Value part value.entry) (logged t old log.old.items) π) }
{
    match replaced(log, part) {
        None => {
            log.push(Held::Value(part, value))?;
            Ok(())
        }
        Some(number) => {
            log[number] = Held::Value(part, value);
            Ok(())
        }
    }
}

/// A part is zeroed.
pub fn note_zeros(log: &mut Vec<Held<'_>>, part: Part) -> Result<(), AllocError>
    ensures { IfOk result (λ u. (t : SourceType) (old : Route → Option Val) (π : Route) → logged t old log.new.items π ≡ noted t (entry.Zeros part) (logged t old log.old.items) π) }
{
    log.push(Held::Zeros(part))?;
    Ok(())
}
