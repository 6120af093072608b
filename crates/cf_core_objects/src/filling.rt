ghost use Rattle.std.specs.Prelude.{◌≡◌, ◌+◌, ◌<◌, ◌^◌, [], ◌∷◌, length, pos};
ghost use Rattle.cf_base.specs.Integers.{convert};
ghost use Rattle.cf_base.specs.World.{World};
ghost use Rattle.cf_core.specs.Access as access;
ghost use Rattle.cf_core.specs.Core as core;
ghost use Rattle.cf_core.specs.FromTypes.{Tables};
ghost use Rattle.cf_core.specs.Objects as meaning;
ghost use Rattle.cf_core.specs.Places.{inner};
ghost use Rattle.cf_core.specs.Run.{changed};
ghost use Rattle.cf_core.specs.Store.{Number};
ghost use Rattle.cf_core_place.specs.Routes.{place_of, goal_place, row_place};
ghost use Rattle.cf_core_objects.specs.Answer.{Told};
ghost use Rattle.cf_core_objects.specs.Site.{Counted, form_kind};
ghost use Rattle.cf_core_objects.specs.Store.{state_of};
ghost use Rattle.cf_core_objects.specs.declared.object.Entered.{Entered as Enter};

use crate::access::first_value;
use crate::answer::Stop;
use crate::log::note_zeros;
use crate::object::Objects;
use crate::site::{Sort, character, site_at};
use cf_base::Kind;
use cf_core_place::{Goal, Place, Row};
use cf_run_tree::Form;

/// An array whose elements are built, and how many these are.
#[derive(Clone, Copy, Debug, PartialEq, Eq)]
pub struct Array {
    pub row: Row,
    pub count: u32,
}

/// What is built, as an array.
pub fn elements(objects: &Objects<'_>, goal: Goal) -> Result<Array, Stop>
    ensures { (T : Tables) (e : Enter) → Counted (access.place_type [] (state_of T e objects.now) (goal_place goal)) goal result }
{
    let site = site_at(objects, goal.place());
    match site.sort {
        Sort::Array(count) => match goal.row() {
            None => Err(Stop::Malformed),
            Some(row) => Ok(Array { row, count }),
        },
        _ => Err(Stop::Malformed),
    }
}

/// Every scalar at a place is 0 or null (8.4). A run fills only objects that it made.
pub fn fill_zeros(objects: &mut Objects<'_>, place: Place) -> Result<(), Stop>
    ensures { (T : Tables) (e : Enter) (w : World) → Told (λ u. tt) result (state_of T e objects.new) w (access.fill_zeros [] (place_of place) (state_of T e objects.old) w) }
{
    let object = place.object;
    if object >= objects.cells.len() {
        return Err(Stop::Memory);
    }
    note_zeros(&mut objects.cells[object].log, place.part)?;
    Ok(())
}

/// The kind of the integers of a form; of what is no integer that of char.
fn kind_of(form: Form) -> Kind
    ensures { result ≡ form_kind form }
{
    match form {
        Form::Integer(kind) => kind,
        Form::Void => Kind::Char,
        Form::Enumeration(_) => Kind::Char,
        Form::Pointer(_) => Kind::Char,
        Form::Reference(_) => Kind::Char,
    }
}

/// The kind of the characters that an array holds.
pub fn character_kind(objects: &Objects<'_>, row: Row) -> Kind
    ensures { (T : Tables) (e : Enter) → meaning.character_kind (access.place_type [] (state_of T e objects.now) (row_place row)) ≡ result }
{
    match objects.cells.get(row.object) {
        None => Kind::Char,
        Some(cell) => kind_of(cell.shape.form),
    }
}

/// The elements of an array of characters of this kind get these bytes (8.4.2).
pub fn write_bytes(
    objects: &mut Objects<'_>,
    kind: Kind,
    row: Row,
    bytes: &[u8],
) -> Result<(), Stop>
    requires { length bytes.now < 2 ^ 32 }
    ensures { (T : Tables) (e : Enter) (w : World) → Told (λ u. tt) result (state_of T e objects.new) w (meaning.write_bytes kind (row_place row) 0 bytes.now (state_of T e objects.old) w) }
{
    write_from(objects, kind, row, 0, bytes)
}

/// The elements from this index on get these bytes.
fn write_from(
    objects: &mut Objects<'_>,
    kind: Kind,
    row: Row,
    index: u32,
    bytes: &[u8],
) -> Result<(), Stop>
    requires { index + length bytes.now < 2 ^ 32 }
    ensures { (T : Tables) (e : Enter) (w : World) → Told (λ u. tt) result (state_of T e objects.new) w (meaning.write_bytes kind (row_place row) index bytes.now (state_of T e objects.old) w) }
{
    match bytes.split_first() {
        None => Ok(()),
        Some((byte, rest)) => match write_byte(objects, kind, row, index, *byte) {
            Err(stop) => Err(stop),
            Ok(()) => write_from(objects, kind, row, index + 1, rest),
        },
    }
}

/// The element of this index gets this byte.
fn write_byte(
    objects: &mut Objects<'_>,
    kind: Kind,
    row: Row,
    index: u32,
    byte: u8,
) -> Result<(), Stop>
    ensures { (T : Tables) (e : Enter) (w : World) → Told (λ u. tt) result (state_of T e objects.new) w (access.first_value (inner (core.item index) (row_place row)) (Number (convert kind (pos byte))) (state_of T e objects.old) w) }
{
    let goal = row.element(index);
    first_value(objects, goal.place(), character(kind, byte))
}

/// Control reaches the initialiser of the static object of this name (6.7).
pub fn reach<'a>(objects: &mut Objects<'a>, name: &'a [u8]) -> Result<(), Stop>
    ensures { (T : Tables) (e : Enter) (w : World) → Told (λ u. tt) result (state_of T e objects.new) w (changed (λ s. record s { reached = name.now ∷ s.reached }) (state_of T e objects.old) w) }
{
    objects.reached.push(name)?;
    Ok(())
}
