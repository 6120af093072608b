ghost use Rattle.std.specs.Prelude.{◌≡◌, []};
ghost use Rattle.cf_base.specs.World.{World};
ghost use Rattle.cf_core.specs.FromTypes.{Tables};
ghost use Rattle.cf_core.specs.Places as places;
ghost use Rattle.cf_core.specs.Pointers as pointers;
ghost use Rattle.cf_core.specs.Run.{State};
ghost use Rattle.cf_core.specs.Store.{At, Null, Code};
ghost use Rattle.cf_core_place.specs.Routes.{place_of};
ghost use Rattle.cf_core_objects.specs.Answer.{Told};
ghost use Rattle.cf_core_objects.specs.Store.{state_of, value_of};
ghost use Rattle.cf_core_objects.specs.declared.object.Entered.{Entered as Enter};
ghost use Rattle.cf_core_store.specs.Compared as compared;
ghost use Rattle.cf_core_store.specs.Compared.{AreSites, less_of};

use crate::arithmetic::truth_number;
use cf_core::PointerOperator;
use cf_core_objects::{Objects, Site, Stop, Value, site_at};
use cf_core_place::{Place, array, index, lies_in, same_array, same_part};

/// Whether two places are one.
fn same_place(p: Place, q: Place) -> bool
    ensures { result ≡ places.place_eq (place_of p) (place_of q) }
{
    p.object == q.object && same_part(p.part, q.part)
}

/// Whether two places are elements of one array, or of one object that is none (5.7).
fn in_one_array(p: Place, q: Place) -> bool
    ensures { result ≡ pointers.same_array (place_of p) (place_of q) }
{
    p.object == q.object && same_array(p.part, q.part)
}

/// Whether a place lies in the array of which an end is given.
fn in_array(p: Place, end: Place) -> bool
    ensures { result ≡ pointers.in_array (place_of p) (place_of end) }
{
    p.object == end.object && lies_in(p.part, array(end.part))
}

/// Whether a place, of which it is told whether it is no end, may be compared with another as far as ends go.
fn ends(is_inside: bool, p: Place, q: Place) -> bool
    ensures { result ≡ compared.ends is_inside (place_of p) (place_of q) }
{
    is_inside || in_array(q, p)
}

/// Whether a place, of which it is told whether it is no end, lies in another.
fn lies(is_inside: bool, p: Place, q: Place) -> bool
    ensures { result ≡ compared.lies is_inside (place_of p) (place_of q) }
{
    is_inside && p.object == q.object && lies_in(p.part, q.part)
}

/// Whether two places may be compared: the end of an array is compared with pointers into that array alone and not with another end,
/// and two places of which one lies in the other with neither.
fn comparable(is_inside: bool, other_inside: bool, p: Place, q: Place) -> bool
    ensures { result ≡ compared.comparable is_inside other_inside (place_of p) (place_of q) }
{
    same_place(p, q)
        || ((is_inside || other_inside)
            && ends(is_inside, p, q)
            && ends(other_inside, q, p)
            && !lies(is_inside, p, q)
            && !lies(other_inside, q, p))
}

/// What is at two places.
#[derive(Clone, Copy)]
struct Both {
    first: Site,
    second: Site,
}

fn both_at(objects: &Objects<'_>, p: Place, q: Place) -> Both
    ensures { (T : Tables) (e : Enter) → AreSites (state_of T e objects.now) (place_of p) (place_of q) result }
{
    let first = site_at(objects, p);
    let second = site_at(objects, q);
    Both { first, second }
}

/// How many elements lead from the second place to the first (5.7).
fn distance<'a>(both: Both, p: Place, q: Place) -> Result<Value<'a>, Stop>
    ensures { (s : State) (w : World) → Told value_of result s w (compared.distance both.first.is_gone both.second.is_gone (place_of p) (place_of q) s w) }
{
    if both.first.is_gone {
        return Err(Stop::Act(5));
    }
    if both.second.is_gone {
        return Err(Stop::Act(5));
    }
    if !in_one_array(p, q) {
        return Err(Stop::Act(6));
    }
    let first = i64::from(index(p.part));
    let second = i64::from(index(q.part));
    Ok(Value::Number(first - second))
}

/// The number of elements from the second of two places to the first.
fn distance_at<'a>(objects: &Objects<'_>, p: Place, q: Place) -> Result<Value<'a>, Stop>
    ensures { (T : Tables) (e : Enter) (w : World) → Told value_of result (state_of T e objects.now) w (pointers.difference_of (At (place_of p)) (At (place_of q)) (state_of T e objects.now) w) }
{
    distance(both_at(objects, p, q), p, q)
}

/// The difference of two pointers (5.7).
pub fn difference<'a>(objects: &Objects<'_>, x: Value<'_>, y: Value<'_>) -> Result<Value<'a>, Stop>
    ensures { (T : Tables) (e : Enter) (w : World) → Told value_of result (state_of T e objects.now) w (pointers.difference_of (value_of x.entry) (value_of y.entry) (state_of T e objects.now) w) }
{
    match x {
        Value::At(p) => match y {
            Value::At(q) => distance_at(objects, p, q),
            Value::Null => Err(Stop::Act(4)),
            _ => Err(Stop::Malformed),
        },
        Value::Null => match y {
            Value::At(_) => Err(Stop::Act(4)),
            Value::Null => Err(Stop::Act(4)),
            _ => Err(Stop::Malformed),
        },
        _ => Err(Stop::Malformed),
    }
}

/// Whether two indexes stand in this order.
fn in_order(op: PointerOperator, i: u32, j: u32) -> bool
    ensures { result ≡ less_of op i j }
{
    match op {
        PointerOperator::Less => i < j,
        PointerOperator::Greater => j < i,
        PointerOperator::LessEqual => i <= j,
        PointerOperator::GreaterEqual => j <= i,
        _ => false,
    }
}

/// Whether two places stand in this order (5.9).
fn order<'a>(op: PointerOperator, both: Both, p: Place, q: Place) -> Result<Value<'a>, Stop>
    ensures { (s : State) (w : World) → Told value_of result s w (compared.order op both.first.is_gone both.second.is_gone (place_of p) (place_of q) s w) }
{
    if both.first.is_gone {
        return Err(Stop::Act(10));
    }
    if both.second.is_gone {
        return Err(Stop::Act(10));
    }
    if !in_one_array(p, q) {
        return Err(Stop::Act(10));
    }
    Ok(truth_number(in_order(op, index(p.part), index(q.part))))
}

/// The order of two places.
fn order_at<'a>(
    objects: &Objects<'_>,
    op: PointerOperator,
    p: Place,
    q: Place,
) -> Result<Value<'a>, Stop>
    ensures { (T : Tables) (e : Enter) (w : World) → Told value_of result (state_of T e objects.now) w (pointers.ordered [] (less_of op) (At (place_of p)) (At (place_of q)) (state_of T e objects.now) w) }
{
    order(op, both_at(objects, p, q), p, q)
}

/// The order of two pointers (5.9).
pub fn ordered<'a>(
    objects: &Objects<'_>,
    op: PointerOperator,
    x: Value<'_>,
    y: Value<'_>,
) -> Result<Value<'a>, Stop>
    ensures { (T : Tables) (e : Enter) (w : World) → Told value_of result (state_of T e objects.now) w (pointers.ordered [] (less_of op) (value_of x.entry) (value_of y.entry) (state_of T e objects.now) w) }
{
    match x {
        Value::At(p) => match y {
            Value::At(q) => order_at(objects, op, p, q),
            Value::Null => Err(Stop::Act(4)),
            _ => Err(Stop::Malformed),
        },
        Value::Null => match y {
            Value::At(_) => Err(Stop::Act(4)),
            Value::Null => Err(Stop::Act(4)),
            _ => Err(Stop::Malformed),
        },
        _ => Err(Stop::Malformed),
    }
}

/// Whether two places are equal (5.10).
fn equality(both: Both, p: Place, q: Place) -> Result<bool, Stop>
    ensures { (s : State) (w : World) → Told (λ b. b) result s w (compared.equality both.first both.second (place_of p) (place_of q) s w) }
{
    if both.first.is_gone {
        return Err(Stop::Act(10));
    }
    if both.second.is_gone {
        return Err(Stop::Act(10));
    }
    if !comparable(both.first.is_inside, both.second.is_inside, p, q) {
        return Err(Stop::Act(10));
    }
    Ok(same_place(p, q))
}

/// Whether two places are one, where they may be compared.
fn equal_at(objects: &Objects<'_>, p: Place, q: Place) -> Result<bool, Stop>
    ensures { (T : Tables) (e : Enter) (w : World) → Told (λ b. b) result (state_of T e objects.now) w (pointers.equal_values [] (At (place_of p)) (At (place_of q)) (state_of T e objects.now) w) }
{
    equality(both_at(objects, p, q), p, q)
}

/// Whether two pointers are equal (5.10).
pub fn equal(objects: &Objects<'_>, x: Value<'_>, y: Value<'_>) -> Result<bool, Stop>
    ensures { (T : Tables) (e : Enter) (w : World) → Told (λ b. b) result (state_of T e objects.now) w (pointers.equal_values [] (value_of x.entry) (value_of y.entry) (state_of T e objects.now) w) }
{
    match x {
        Value::At(p) => match y {
            Value::At(q) => equal_at(objects, p, q),
            Value::Null => Ok(false),
            _ => Err(Stop::Malformed),
        },
        Value::Null => equal_null(y),
        Value::Code(f) => equal_code(f, y),
        _ => Err(Stop::Malformed),
    }
}

/// Whether a pointer is null.
fn equal_null(y: Value<'_>) -> Result<bool, Stop>
    ensures { (s : State) (w : World) → Told (λ b. b) result s w (pointers.equal_values [] Null (value_of y.entry) s w) }
{
    match y {
        Value::Null => Ok(true),
        Value::At(_) => Ok(false),
        Value::Code(_) => Ok(false),
        _ => Err(Stop::Malformed),
    }
}

/// Whether a pointer is one to this function.
fn equal_code(f: &[u8], y: Value<'_>) -> Result<bool, Stop>
    ensures { (s : State) (w : World) → Told (λ b. b) result s w (pointers.equal_values [] (Code f.now) (value_of y.entry) s w) }
{
    match y {
        Value::Null => Ok(false),
        Value::Code(g) => Ok(f == g),
        _ => Err(Stop::Malformed),
    }
}
