ghost use Rattle.std.specs.Prelude.{◌≡◌, ◌<◌, ◌+◌, [], pos, neg_ℤ, Some};
ghost use Rattle.cf_core.specs.Pointers as pointers;
ghost use Rattle.cf_core.specs.Pointers.{element_of};
ghost use Rattle.cf_core_place.specs.Routes.{route_of, kept_to};

use crate::part::Part;

/// The index of a part in the array of which it is an element; an object that is none counts as the one element of an array (5.7).
pub fn index(part: Part) -> u32
    ensures { (element_of (route_of part)).index ≡ result }
{
    match part {
        Part::Whole => 0,
        Part::Past => 1,
        Part::Item(index) => index,
        Part::Inner(_, index) => index,
    }
}

/// That array.
pub fn array(part: Part) -> Part
    ensures { route_of result ≡ (element_of (route_of part)).array }
{
    match part {
        Part::Inner(row, _) => Part::Item(row),
        _ => Part::Whole,
    }
}

/// The element of this index of that array.
pub fn with_index(part: Part, index: u32) -> Part
    ensures { route_of result ≡ pointers.route_of (element_of (route_of part)) index }
{
    match part {
        Part::Item(_) => Part::Item(index),
        Part::Inner(row, _) => Part::Inner(row, index),
        _ => lone(index),
    }
}

/// An object that is no element, or its end.
fn lone(index: u32) -> Part
    ensures { route_of result ≡ pointers.lone_route [] index }
{
    if index == 0 { Part::Whole } else { Part::Past }
}

/// The index that is so many further, where it is at most the bound.
pub fn further(index: u32, by: i128, bound: u32) -> Option<u32>
    ensures { result ≡ kept_to bound (pointers.further index by) }
{
    if by >= 0 {
        forward(index, by as u128, bound)
    } else {
        back(index, by.unsigned_abs(), bound)
    }
}

/// The index that is so many further on, where it is at most the bound.
fn forward(index: u32, by: u128, bound: u32) -> Option<u32>
    ensures { result ≡ kept_to bound (Some (index + by)) }
{
    if index > bound || by > (bound - index) as u128 {
        return None;
    }
    Some(index + by as u32)
}

/// The index that is so many before, where it is at most the bound.
fn back(index: u32, by: u128, bound: u32) -> Option<u32>
    requires { 0 < by }
    ensures { result ≡ kept_to bound (pointers.further index (neg_ℤ (pos by))) }
{
    if by > index as u128 {
        return None;
    }
    let moved = index - by as u32;
    if moved > bound {
        return None;
    }
    Some(moved)
}
