ghost use Rattle.std.specs.Prelude.{◌≡◌, [], true};
ghost use Rattle.cf_base.specs.World.{World};
ghost use Rattle.cf_core.specs.Core as core;
ghost use Rattle.cf_core.specs.FromTypes.{Tables};
ghost use Rattle.cf_core.specs.Pointers as pointers;
ghost use Rattle.cf_core.specs.Run.{State};
ghost use Rattle.cf_core.specs.Scalars as scalars;
ghost use Rattle.cf_core.specs.Store.{At};
ghost use Rattle.cf_core_place.specs.Routes.{place_of, has_items};
ghost use Rattle.cf_core_objects.specs.Answer.{Told};
ghost use Rattle.cf_core_objects.specs.Store.{state_of, value_of};
ghost use Rattle.cf_core_objects.specs.declared.object.Entered.{Entered as Enter};
ghost use Rattle.cf_core_store.specs.Compared.{first_of};

use cf_core_objects::{Objects, Sort, Stop, Value, site_at};
use cf_core_place::{Place, further, index, item, with_index};

/// A place of an object that has not ended, moved by a number of elements, within its array or to its end (5.7).
fn moved_place<'a>(objects: &Objects<'_>, place: Place, by: i128) -> Result<Value<'a>, Stop>
    ensures { (T : Tables) (e : Enter) (w : World) → Told value_of result (state_of T e objects.now) w (pointers.moved_place [] (place_of place) by (state_of T e objects.now) w) }
{
    let site = site_at(objects, place);
    if site.is_gone {
        return Err(Stop::Act(5));
    }
    match further(index(place.part), by, site.bound) {
        None => Err(Stop::Act(6)),
        Some(index) => Ok(Value::At(Place {
            object: place.object,
            part: with_index(place.part, index),
        })),
    }
}

/// A pointer moved by a number of elements.
fn moved_value<'a>(objects: &Objects<'_>, v: Value<'a>, by: i128) -> Result<Value<'a>, Stop>
    ensures { (T : Tables) (e : Enter) (w : World) → Told value_of result (state_of T e objects.now) w (pointers.moved_value [] (value_of v.entry) by (state_of T e objects.now) w) }
{
    match v {
        Value::At(place) => moved_place(objects, place, by),
        Value::Null => Err(Stop::Act(4)),
        _ => Err(Stop::Malformed),
    }
}

/// A pointer moved by a value.
pub fn moved_by<'a>(objects: &Objects<'_>, v: Value<'a>, by: Value<'_>) -> Result<Value<'a>, Stop>
    ensures { (T : Tables) (e : Enter) (w : World) → Told value_of result (state_of T e objects.now) w (scalars.moved_by [] (value_of v.entry) (value_of by.entry) (state_of T e objects.now) w) }
{
    match by {
        Value::Number(by) => moved_value(objects, v, i128::from(by)),
        _ => Err(Stop::Malformed),
    }
}

/// A pointer and an integer, in either order (5.2.1, 5.7).
pub fn indexed<'a>(objects: &Objects<'_>, x: Value<'a>, y: Value<'a>) -> Result<Value<'a>, Stop>
    ensures { (T : Tables) (e : Enter) (w : World) → Told value_of result (state_of T e objects.now) w (scalars.indexed [] (value_of x.entry) (value_of y.entry) (state_of T e objects.now) w) }
{
    match x {
        Value::Number(by) => moved_value(objects, y, i128::from(by)),
        _ => moved_by(objects, x, y),
    }
}

/// A pointer moved back by a value, as `-=` moves it.
fn changed_back<'a>(objects: &Objects<'_>, v: Value<'a>, by: Value<'a>) -> Result<Value<'a>, Stop>
    ensures { (T : Tables) (e : Enter) (w : World) → Told value_of result (state_of T e objects.now) w (scalars.moved_by [] (value_of v.entry) (scalars.minus (value_of by.entry)) (state_of T e objects.now) w) }
{
    match by {
        Value::Number(number) => moved_value(objects, v, -i128::from(number)),
        _ => Err(Stop::Malformed),
    }
}

/// A pointer moved by a value, as `+=` or, where true, `-=` moves it (5.17).
pub fn changed_pointer<'a>(
    objects: &Objects<'_>,
    is_back: bool,
    v: Value<'a>,
    by: Value<'a>,
) -> Result<Value<'a>, Stop>
    ensures { (T : Tables) (e : Enter) (w : World) → Told value_of result (state_of T e objects.now) w (scalars.changed_value [] (core.moved is_back) (value_of v.entry) (value_of by.entry) (state_of T e objects.now) w) }
{
    if is_back {
        changed_back(objects, v, by)
    } else {
        moved_by(objects, v, by)
    }
}

/// A pointer minus a value (5.7).
pub fn moved_back<'a>(objects: &Objects<'_>, v: Value<'a>, by: Value<'_>) -> Result<Value<'a>, Stop>
    ensures { (T : Tables) (e : Enter) (w : World) → Told value_of result (state_of T e objects.now) w (pointers.moved_back [] (value_of v.entry) (value_of by.entry) (state_of T e objects.now) w) }
{
    match by {
        Value::Number(number) => moved_value(objects, v, -i128::from(number)),
        _ => Err(Stop::Malformed),
    }
}

/// A pointer to the first element of an array (4.6).
fn decayed_place<'a>(objects: &Objects<'_>, place: Place) -> Result<Value<'a>, Stop>
    ensures { (T : Tables) (e : Enter) (w : World) → Told value_of result (state_of T e objects.now) w (scalars.decayed [] (At (place_of place)) (state_of T e objects.now) w) }
{
    let site = site_at(objects, place);
    match site.sort {
        Sort::Array(_) => first_element(place, site.is_inside),
        _ => Err(Stop::Malformed),
    }
}

/// The first element of a place, where that is no end of an array.
fn first_element<'a>(place: Place, is_inside: bool) -> Result<Value<'a>, Stop>
    requires { is_inside ≡ true → has_items place.part ≡ true }
    ensures { (s : State) (w : World) → Told value_of result s w (first_of is_inside (place_of place) s w) }
{
    if !is_inside {
        return Err(Stop::Act(6));
    }
    match item(place.part, 0) {
        None => Err(Stop::Malformed),
        Some(part) => Ok(Value::At(Place {
            object: place.object,
            part,
        })),
    }
}

/// A pointer to the first element of an array; a function stays itself (4.6).
pub fn decayed<'a>(objects: &Objects<'_>, v: Value<'a>) -> Result<Value<'a>, Stop>
    ensures { (T : Tables) (e : Enter) (w : World) → Told value_of result (state_of T e objects.now) w (scalars.decayed [] (value_of v.entry) (state_of T e objects.now) w) }
{
    match v {
        Value::At(place) => decayed_place(objects, place),
        Value::Code(name) => Ok(Value::Code(name)),
        _ => Err(Stop::Malformed),
    }
}
