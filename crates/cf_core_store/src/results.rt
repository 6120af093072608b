ghost use Rattle.std.specs.Prelude.{◌≡◌, []};
ghost use Rattle.cf_base.specs.World.{World};
ghost use Rattle.cf_core.specs.Access as access;
ghost use Rattle.cf_core.specs.Core.{arithmetic};
ghost use Rattle.cf_core.specs.FromTypes.{Tables};
ghost use Rattle.cf_core.specs.Pointers as pointers;
ghost use Rattle.cf_core.specs.Run.{State};
ghost use Rattle.cf_core.specs.Scalars as scalars;
ghost use Rattle.cf_core_place.specs.Routes.{place_of};
ghost use Rattle.cf_core_objects.specs.Answer.{Told};
ghost use Rattle.cf_core_objects.specs.Store.{state_of, value_of};
ghost use Rattle.cf_core_objects.specs.declared.object.Entered.{Entered as Enter};
ghost use Rattle.cf_core_store.specs.Values as values;

use crate::arithmetic::{changed, converted_to, number, operated, signed, truth, truth_number};
use crate::compared::{difference, equal, ordered};
use crate::moving::{changed_pointer, decayed, indexed, moved_back};
use cf_base::{Arith, Kind};
use cf_core::{PointerOperator, UnaryOperator};
use cf_core_objects::{Objects, Stop, Value, read, used, write};
use cf_core_place::Place;
use cf_run_tree::{Binary, Change, Operation, Unary};

/// What is made of a value once it is there.
#[derive(Clone, Copy)]
pub enum Applied<'a> {
    One(&'a Unary),
    /// With the left operand.
    Two(Binary, Value<'a>),
    /// 1 if it counts as true, or 0.
    Truth,
    /// Itself, where it is used.
    Used,
}

/// The place that an lvalue is.
fn place(v: Value<'_>) -> Result<Place, Stop>
    ensures { (s : State) (w : World) → Told place_of result s w (access.place_of (value_of v.entry) s w) }
{
    match v {
        Value::At(place) => Ok(place),
        _ => Err(Stop::Malformed),
    }
}

/// The place that a used value is.
fn used_place(v: Value<'_>) -> Result<Place, Stop>
    ensures { (s : State) (w : World) → Told place_of result s w (values.placed_value (value_of v.entry) s w) }
{
    match used(v) {
        Err(stop) => Err(stop),
        Ok(v) => place(v),
    }
}

/// The new value of what an object holds.
fn changed_value<'a>(
    objects: &Objects<'_>,
    by: Change,
    x: Value<'a>,
    y: Value<'a>,
) -> Result<Value<'a>, Stop>
    ensures { (T : Tables) (e : Enter) (w : World) → Told value_of result (state_of T e objects.now) w (values.changed_by by (value_of x.entry) (value_of y.entry) (state_of T e objects.now) w) }
{
    match by {
        Change::Arithmetic(by) => changed_number(by, x, y),
        Change::Moved(is_back) => changed_pointer(objects, is_back, x, y),
    }
}

/// The new value of a number that an object holds.
fn changed_number<'a>(by: Operation, x: Value<'a>, y: Value<'a>) -> Result<Value<'a>, Stop>
    ensures { (s : State) (w : World) → Told value_of result s w (scalars.changed_value [] (arithmetic by.op by.at by.to) (value_of x.entry) (value_of y.entry) s w) }
{
    match x {
        Value::Number(x) => number(changed(by.op, by.at, by.to, x, y)),
        _ => Err(Stop::Malformed),
    }
}

/// A value is stored at a place.
fn put<'a>(objects: &mut Objects<'a>, place: Place, v: Value<'a>) -> Result<Value<'a>, Stop>
    ensures { (T : Tables) (e : Enter) (w : World) → Told value_of result (state_of T e objects.new) w (values.put_at (place_of place) (value_of v.entry) (state_of T e objects.old) w) }
{
    match write(objects, place, v) {
        Err(stop) => Err(stop),
        Ok(()) => Ok(Value::At(place)),
    }
}

/// What stands at a place is changed by a right operand.
fn change<'a>(
    objects: &mut Objects<'a>,
    place: Place,
    by: Change,
    y: Value<'a>,
) -> Result<Value<'a>, Stop>
    ensures { (T : Tables) (e : Enter) (w : World) → Told value_of result (state_of T e objects.new) w (values.changed_at by (place_of place) (value_of y.entry) (state_of T e objects.old) w) }
{
    match read(objects, place) {
        Err(stop) => Err(stop),
        Ok(x) => match changed_value(objects, by, x, y) {
            Err(stop) => Err(stop),
            Ok(z) => put(objects, place, z),
        },
    }
}

/// What stands at a place is changed by one.
fn step<'a>(
    objects: &mut Objects<'a>,
    place: Place,
    is_postfix: bool,
    by: Change,
) -> Result<Value<'a>, Stop>
    ensures { (T : Tables) (e : Enter) (w : World) → Told value_of result (state_of T e objects.new) w (values.stepped_at is_postfix by (place_of place) (state_of T e objects.old) w) }
{
    match read(objects, place) {
        Err(stop) => Err(stop),
        Ok(x) => match changed_value(objects, by, x, Value::Number(1)) {
            Err(stop) => Err(stop),
            Ok(z) => match write(objects, place, z) {
                Err(stop) => Err(stop),
                Ok(()) => Ok(if is_postfix { x } else { Value::At(place) }),
            },
        },
    }
}

/// What a pointer points to.
fn pointed_to<'a>(v: Value<'a>) -> Result<Value<'a>, Stop>
    ensures { (s : State) (w : World) → Told value_of result s w (scalars.pointed_to (value_of v.entry) s w) }
{
    match v {
        Value::At(place) => Ok(Value::At(place)),
        Value::Code(name) => Ok(Value::Code(name)),
        Value::Null => Err(Stop::Act(4)),
        _ => Err(Stop::Malformed),
    }
}

/// `!`
fn negated<'a>(v: Value<'a>) -> Result<Value<'a>, Stop>
    ensures { (s : State) (w : World) → Told value_of result s w (values.negated (value_of v.entry) s w) }
{
    match truth(v) {
        Err(stop) => Err(stop),
        Ok(holds) => Ok(truth_number(!holds)),
    }
}

/// 1 if it counts as true, or 0.
fn counted<'a>(v: Value<'a>) -> Result<Value<'a>, Stop>
    ensures { (s : State) (w : World) → Told value_of result s w (values.counted (value_of v.entry) s w) }
{
    match truth(v) {
        Err(stop) => Err(stop),
        Ok(holds) => Ok(truth_number(holds)),
    }
}

/// `-` or `~`
fn signed_value<'a>(op: UnaryOperator, kind: Kind, v: Value<'a>) -> Result<Value<'a>, Stop>
    ensures { (s : State) (w : World) → Told value_of result s w (scalars.signed op kind (value_of v.entry) s w) }
{
    number(signed(op, kind, v))
}

/// An operator at two values.
fn operated_value<'a>(op: Arith, kind: Kind, x: Value<'a>, y: Value<'a>) -> Result<Value<'a>, Stop>
    ensures { (s : State) (w : World) → Told value_of result s w (scalars.operated op kind (value_of x.entry) (value_of y.entry) s w) }
{
    number(operated(op, kind, x, y))
}

/// What is made of one used operand, without an object being changed.
fn by_used<'a>(objects: &Objects<'_>, op: Unary, v: Value<'a>) -> Result<Value<'a>, Stop>
    ensures { (T : Tables) (e : Enter) (w : World) → Told value_of result (state_of T e objects.now) w (values.by_used op (value_of v.entry) (state_of T e objects.now) w) }
{
    match op {
        Unary::Dereference => pointed_to(v),
        Unary::Decay => decayed(objects, v),
        Unary::Sign(op, kind) => signed_value(op, kind, v),
        _ => Ok(v),
    }
}

/// What is made of one operand that is used.
fn of_used<'a>(objects: &Objects<'_>, op: Unary, v: Value<'a>) -> Result<Value<'a>, Stop>
    ensures { (T : Tables) (e : Enter) (w : World) → Told value_of result (state_of T e objects.now) w (values.of_used op (value_of v.entry) (state_of T e objects.now) w) }
{
    match used(v) {
        Err(stop) => Err(stop),
        Ok(v) => by_used(objects, op, v),
    }
}

/// What is made of what stands at an lvalue.
fn of_place<'a>(objects: &mut Objects<'a>, op: Unary, v: Value<'a>) -> Result<Value<'a>, Stop>
    ensures { (T : Tables) (e : Enter) (w : World) → Told value_of result (state_of T e objects.new) w (values.of_place op (value_of v.entry) (state_of T e objects.old) w) }
{
    match used_place(v) {
        Err(stop) => Err(stop),
        Ok(place) => match op {
            Unary::Increment(is_postfix, by) => step(objects, place, is_postfix, by),
            _ => read(objects, place),
        },
    }
}

/// What is made of one operand.
fn of_one<'a>(objects: &mut Objects<'a>, op: Unary, v: Value<'a>) -> Result<Value<'a>, Stop>
    ensures { (T : Tables) (e : Enter) (w : World) → Told value_of result (state_of T e objects.new) w (values.of_one T op (value_of v.entry) (state_of T e objects.old) w) }
{
    match op {
        Unary::Read => of_place(objects, op, v),
        Unary::Increment(_, _) => of_place(objects, op, v),
        Unary::Convert(shape) => converted_to(shape, v),
        Unary::Not => negated(v),
        Unary::Address => of_used(objects, op, v),
        Unary::Dereference => of_used(objects, op, v),
        Unary::Decay => of_used(objects, op, v),
        Unary::Sign(_, _) => of_used(objects, op, v),
    }
}

/// What is kept of the left operand while the right one is evaluated.
pub fn ready<'a>(op: Binary, v: Value<'a>) -> Result<Value<'a>, Stop>
    ensures { (s : State) (w : World) → Told value_of result s w (values.ready op (value_of v.entry) s w) }
{
    match op {
        Binary::Operate(_, _) => used(v),
        Binary::Store => kept_place(v),
        Binary::Update(_) => kept_place(v),
        Binary::Index => used(v),
        Binary::Point(_) => used(v),
    }
}

/// The place that a value is, as a value.
fn kept_place<'a>(v: Value<'a>) -> Result<Value<'a>, Stop>
    ensures { (s : State) (w : World) → Told value_of result s w (values.kept_place (value_of v.entry) s w) }
{
    match used_place(v) {
        Err(stop) => Err(stop),
        Ok(place) => Ok(Value::At(place)),
    }
}

/// Whether two pointers are equal, as 1 or 0.
fn equal_number<'a>(objects: &Objects<'_>, x: Value<'_>, y: Value<'_>) -> Result<Value<'a>, Stop>
    ensures { (T : Tables) (e : Enter) (w : World) → Told value_of result (state_of T e objects.now) w (values.equal_number (value_of x.entry) (value_of y.entry) (state_of T e objects.now) w) }
{
    match equal(objects, x, y) {
        Err(stop) => Err(stop),
        Ok(holds) => Ok(truth_number(holds)),
    }
}

/// Whether two pointers are not equal, as 1 or 0.
fn unequal_number<'a>(objects: &Objects<'_>, x: Value<'_>, y: Value<'_>) -> Result<Value<'a>, Stop>
    ensures { (T : Tables) (e : Enter) (w : World) → Told value_of result (state_of T e objects.now) w (values.unequal_number (value_of x.entry) (value_of y.entry) (state_of T e objects.now) w) }
{
    match equal(objects, x, y) {
        Err(stop) => Err(stop),
        Ok(holds) => Ok(truth_number(!holds)),
    }
}

/// A pointer and an integer in either order, added (5.7).
fn sum<'a>(objects: &Objects<'_>, x: Value<'a>, y: Value<'a>) -> Result<Value<'a>, Stop>
    ensures { (T : Tables) (e : Enter) (w : World) → Told value_of result (state_of T e objects.now) w (pointers.sum_of [] (value_of x.entry) (value_of y.entry) (state_of T e objects.now) w) }
{
    indexed(objects, x, y)
}

/// An operator at two pointers, or at a pointer and an integer (5.7, 5.9, 5.10).
fn pointed<'a>(
    objects: &Objects<'_>,
    op: PointerOperator,
    x: Value<'a>,
    y: Value<'a>,
) -> Result<Value<'a>, Stop>
    ensures { (T : Tables) (e : Enter) (w : World) → Told value_of result (state_of T e objects.now) w (pointers.pointer_op [] op (value_of x.entry) (value_of y.entry) (state_of T e objects.now) w) }
{
    match op {
        PointerOperator::Add => sum(objects, x, y),
        PointerOperator::Subtract => moved_back(objects, x, y),
        PointerOperator::Difference => difference(objects, x, y),
        PointerOperator::Less => ordered(objects, op, x, y),
        PointerOperator::Greater => ordered(objects, op, x, y),
        PointerOperator::LessEqual => ordered(objects, op, x, y),
        PointerOperator::GreaterEqual => ordered(objects, op, x, y),
        PointerOperator::Equal => equal_number(objects, x, y),
        PointerOperator::NotEqual => unequal_number(objects, x, y),
    }
}

/// What is made of a left operand that is a place and a used right one.
fn stored<'a>(
    objects: &mut Objects<'a>,
    by: Option<Change>,
    x: Value<'a>,
    y: Value<'a>,
) -> Result<Value<'a>, Stop>
    ensures { (T : Tables) (e : Enter) (w : World) → Told value_of result (state_of T e objects.new) w (values.stored by (value_of x.entry) (value_of y.entry) (state_of T e objects.old) w) }
{
    match x {
        Value::At(place) => match by {
            None => put(objects, place, y),
            Some(by) => change(objects, place, by, y),
        },
        _ => Err(Stop::Malformed),
    }
}

/// What is made of a left operand and a used right one.
fn of_both<'a>(
    objects: &mut Objects<'a>,
    op: Binary,
    x: Value<'a>,
    y: Value<'a>,
) -> Result<Value<'a>, Stop>
    ensures { (T : Tables) (e : Enter) (w : World) → Told value_of result (state_of T e objects.new) w (values.of_both op (value_of x.entry) (value_of y.entry) (state_of T e objects.old) w) }
{
    match op {
        Binary::Operate(op, kind) => operated_value(op, kind, x, y),
        Binary::Store => stored(objects, None, x, y),
        Binary::Update(by) => stored(objects, Some(by), x, y),
        Binary::Index => indexed(objects, x, y),
        Binary::Point(op) => pointed(objects, op, x, y),
    }
}

/// What is made of a left and a right operand.
fn of_two<'a>(
    objects: &mut Objects<'a>,
    op: Binary,
    x: Value<'a>,
    v: Value<'a>,
) -> Result<Value<'a>, Stop>
    ensures { (T : Tables) (e : Enter) (w : World) → Told value_of result (state_of T e objects.new) w (values.of_two op (value_of x.entry) (value_of v.entry) (state_of T e objects.old) w) }
{
    match used(v) {
        Err(stop) => Err(stop),
        Ok(y) => of_both(objects, op, x, y),
    }
}

/// What is made of a value once it is there.
pub fn apply<'a>(
    op: &Applied<'a>,
    v: Value<'a>,
    objects: &mut Objects<'a>,
) -> Result<Value<'a>, Stop>
    ensures { (T : Tables) (e : Enter) (w : World) → Told value_of result (state_of T e objects.new) w (values.of_value T op.now (value_of v.entry) (state_of T e objects.old) w) }
{
    match op {
        Applied::One(op) => of_one(objects, **op, v),
        Applied::Two(op, x) => of_two(objects, *op, *x, v),
        Applied::Truth => counted(v),
        Applied::Used => used(v),
    }
}
