ghost use Rattle.std.specs.Prelude.{◌≡◌, [], ℕ, Some, Option, option_map};
ghost use Rattle.cf_base.specs.World.{World};
ghost use Rattle.cf_core.specs.Access as access;
ghost use Rattle.cf_core.specs.Access.{read_place, write_place};
ghost use Rattle.cf_core.specs.Calls.{root};
ghost use Rattle.cf_core.specs.FromTypes.{Tables};
ghost use Rattle.cf_core.specs.Objects as meaning;
ghost use Rattle.cf_core.specs.Places.{type_at};
ghost use Rattle.cf_core.specs.Run.{Act, State};
ghost use Rattle.cf_core.specs.Store.{Value as Val, zero_of};
ghost use Rattle.cf_core_place.specs.Routes.{place_of, route_of};
ghost use Rattle.cf_core_objects.specs.Acts as acts;
ghost use Rattle.cf_core_objects.specs.Answer.{Told};
ghost use Rattle.cf_core_objects.specs.Named.{named, bound_by, settled_value};
ghost use Rattle.cf_core_objects.specs.Site.{IsSite, zero_sort};
ghost use Rattle.cf_core_objects.specs.Store.{object_of, objects_of, state_of, value_of};
ghost use Rattle.cf_core_objects.specs.declared.object.Entered.{Entered as Enter};

use crate::answer::{Stop, Value};
use crate::log::{note, value_at};
use crate::object::{Cell, Entered, Objects};
use crate::site::{Site, Sort, first, is_scalar, site_at, zero};
use cf_core_place::{Part, Place};

/// A value that is used.
pub fn used<'a>(v: Value<'a>) -> Result<Value<'a>, Stop>
    ensures { (s : State) (w : World) → Told value_of result s w (access.used (value_of v.entry) s w) }
{
    match v {
        Value::Nothing => Err(Stop::Malformed),
        Value::Missing => Err(Stop::Act(16)),
        Value::Built => Err(Stop::Malformed),
        Value::Number(number) => Ok(Value::Number(number)),
        Value::Null => Ok(Value::Null),
        Value::At(place) => Ok(Value::At(place)),
        Value::Code(name) => Ok(Value::Code(name)),
    }
}

/// What a part of an object holds that is of this sort.
fn held<'a>(cell: &Cell<'a>, part: Part, sort: Sort) -> Option<Value<'a>>
    ensures { (T : Tables) → zero_of (type_at [] (object_of T (Some cell.now)).type (route_of part)) ≡ zero_sort sort → (object_of T (Some cell.now)).held (route_of part) ≡ option_map value_of result }
{
    value_at(
        cell.log.as_slice(),
        part,
        zero(sort),
        first(cell, part, sort),
    )
}

/// Whether a place may be read.
fn readable(site: Site) -> Result<(), Stop>
    ensures { (s : State) (w : World) → Told (λ u. tt) result s w (acts.readable site s w) }
{
    if !is_scalar(site.sort) {
        return Err(Stop::Malformed);
    }
    if !site.is_inside {
        return Err(Stop::Act(6));
    }
    if site.is_gone {
        return Err(Stop::Act(5));
    }
    Ok(())
}

/// Whether a place may be written to.
fn writable(site: Site) -> Result<(), Stop>
    ensures { (s : State) (w : World) → Told (λ u. tt) result s w (acts.writable site s w) }
{
    match readable(site) {
        Err(stop) => Err(stop),
        Ok(()) => {
            if site.is_constant {
                Err(Stop::Act(15))
            } else {
                Ok(())
            }
        }
    }
}

/// The value of a place that holds this.
fn value_held<'a>(held: Option<Value<'a>>) -> Result<Value<'a>, Stop>
    ensures { (s : State) (w : World) → Told value_of result s w (acts.value_held (option_map value_of held.entry) s w) }
{
    match held {
        None => Err(Stop::Act(7)),
        Some(value) => Ok(value),
    }
}

/// What a place holds that is of this sort; an object that was not made holds zeros.
fn held_at<'a>(objects: &Objects<'a>, place: Place, sort: Sort) -> Option<Value<'a>>
    ensures { (T : Tables) → zero_of (type_at [] (objects_of T objects.now.cells.items place.object).type (route_of place.part)) ≡ zero_sort sort → (objects_of T objects.now.cells.items place.object).held (route_of place.part) ≡ option_map value_of result }
{
    match objects.cells.get(place.object) {
        None => Some(zero(sort)),
        Some(cell) => held(cell, place.part, sort),
    }
}

/// What an object holds as a whole: of a scalar its value, if it has one.
pub fn whole_held<'a>(objects: &Objects<'a>, object: usize) -> Option<Value<'a>>
    ensures { (T : Tables) → (objects_of T objects.now.cells.items object).held [] ≡ option_map value_of result }
{
    let place = Place {
        object,
        part: Part::Whole,
    };
    let site = site_at(objects, place);
    held_at(objects, place, site.sort)
}

/// The value that a scalar holds (4.1).
pub fn read<'a>(objects: &Objects<'a>, place: Place) -> Result<Value<'a>, Stop>
    ensures { (T : Tables) (e : Enter) (w : World) → Told value_of result (state_of T e objects.now) w (read_place [] (place_of place) (state_of T e objects.now) w) }
{
    let site = site_at(objects, place);
    match readable(site) {
        Err(stop) => Err(stop),
        Ok(()) => value_held(held_at(objects, place, site.sort)),
    }
}

/// A scalar gets a value, whatever it held before. A run gives values only to objects that it made.
pub fn first_value<'a>(
    objects: &mut Objects<'a>,
    place: Place,
    value: Value<'a>,
) -> Result<(), Stop>
    ensures { (T : Tables) (e : Enter) (w : World) → Told (λ u. tt) result (state_of T e objects.new) w (access.first_value (place_of place) (value_of value.entry) (state_of T e objects.old) w) }
{
    let object = place.object;
    if object >= objects.cells.len() {
        return Err(Stop::Memory);
    }
    note(&mut objects.cells[object].log, place.part, value)?;
    Ok(())
}

/// A value is written to a scalar that may be changed (5.17, 7.1.6).
pub fn write<'a>(objects: &mut Objects<'a>, place: Place, value: Value<'a>) -> Result<(), Stop>
    ensures { (T : Tables) (e : Enter) (w : World) → Told (λ u. tt) result (state_of T e objects.new) w (write_place [] (place_of place) (value_of value.entry) (state_of T e objects.old) w) }
{
    let site = site_at(objects, place);
    match writable(site) {
        Err(stop) => Err(stop),
        Ok(()) => first_value(objects, place, value),
    }
}

/// A place gets the value of its initialiser, if that has one (8.4).
pub fn settle<'a>(objects: &mut Objects<'a>, place: Place, value: Value<'a>) -> Result<(), Stop>
    ensures { (T : Tables) (e : Enter) (w : World) → Told (λ u. tt) result (state_of T e objects.new) w (meaning.settle [] (place_of place) (value_of value.entry) (state_of T e objects.old) w) }
{
    match value {
        Value::Built => Ok(()),
        _ => settle_value(objects, place, value),
    }
}

/// A place gets its first value.
fn settle_value<'a>(objects: &mut Objects<'a>, place: Place, value: Value<'a>) -> Result<(), Stop>
    ensures { (T : Tables) (e : Enter) (w : World) → Told (λ u. tt) result (state_of T e objects.new) w (settled_value (place_of place) (value_of value.entry) (state_of T e objects.old) w) }
{
    let site = site_at(objects, place);
    if !is_scalar(site.sort) {
        return Err(Stop::Malformed);
    }
    match used(value) {
        Err(stop) => Err(stop),
        Ok(first) => first_value(objects, place, first),
    }
}

/// What a place is, or what is bound to it if it is a reference (8.4.3).
pub fn followed<'a>(place: Place, objects: &Objects<'a>) -> Result<Value<'a>, Stop>
    ensures { (T : Tables) (e : Enter) (w : World) → Told value_of result (state_of T e objects.now) w (access.followed [] (place_of place) (state_of T e objects.now) w) }
{
    let site = site_at(objects, place);
    match site.sort {
        Sort::Reference => bound(read(objects, place)),
        _ => Ok(Value::At(place)),
    }
}

/// A reference is bound to no null pointer.
fn bound<'a>(found: Result<Value<'a>, Stop>) -> Result<Value<'a>, Stop>
    ensures { (act : Act Val) (s : State) (w : World) → Told value_of found.entry s w (act s w) → Told value_of result s w (bound_by act s w) }
{
    match found {
        Err(stop) => Err(stop),
        Ok(v) => not_null(v),
    }
}

/// A value that is no null pointer.
fn not_null<'a>(v: Value<'a>) -> Result<Value<'a>, Stop>
    ensures { (s : State) (w : World) → Told value_of result s w (access.bound_to (value_of v.entry) s w) }
{
    match v {
        Value::Null => Err(Stop::Act(4)),
        _ => Ok(v),
    }
}

/// What the name of the static object of this number stands for.
pub fn static_value<'a>(number: usize, objects: &Objects<'a>) -> Result<Value<'a>, Stop>
    ensures { (T : Tables) (e : Enter) (w : World) → Told value_of result (state_of T e objects.now) w (access.followed [] (root number) (state_of T e objects.now) w) }
{
    followed(
        Place {
            object: number,
            part: Part::Whole,
        },
        objects,
    )
}

/// What the name of a parameter or local stands for: its object, or what a reference is bound to.
pub fn local_value<'a>(
    number: u32,
    entered: &Entered<'_>,
    objects: &Objects<'a>,
) -> Result<Value<'a>, Stop>
    ensures { (T : Tables) (w : World) → Told value_of result (state_of T entered.now objects.now) w (named number (state_of T entered.now objects.now) w) }
{
    if number as usize >= entered.count {
        return Err(Stop::Malformed);
    }
    match entered.locals.get(number as usize) {
        None => Err(Stop::Act(5)),
        Some(None) => Err(Stop::Act(5)),
        Some(Some(object)) => static_value(*object, objects),
    }
}
