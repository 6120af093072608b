ghost use Rattle.std.specs.Prelude.{◌≡◌, [], slice_get, false};
ghost use Rattle.cf_core.specs.FromTypes.{Tables};
ghost use Rattle.cf_core.specs.Places as places;
ghost use Rattle.cf_core.specs.Pointers as pointers;
ghost use Rattle.cf_core.specs.Pointers.{element_of};
ghost use Rattle.cf_run_tree.specs.Tree.{list_of, arrays, shape_type};
ghost use Rattle.cf_run_tree.specs.declared.shape.Shape.{Shape};
ghost use Rattle.cf_core_place.specs.Routes as spec;
ghost use Rattle.cf_core_place.specs.Routes.{route_of, depth};
ghost use Rattle.cf_core_place.specs.declared.part.Part.TheVariants.{Past};

use crate::part::Part;
use cf_run_tree::Bounds;

/// The number of elements of the outermost array.
fn outer(bounds: Bounds) -> Option<u32>
    ensures { result ≡ slice_get (list_of bounds) 0 }
{
    match bounds {
        Bounds::None => None,
        Bounds::One(n) => Some(n),
        Bounds::Two(n, _) => Some(n),
    }
}

/// The number of elements of each array in that one.
fn inner(bounds: Bounds) -> Option<u32>
    ensures { result ≡ slice_get (list_of bounds) 1 }
{
    match bounds {
        Bounds::None => None,
        Bounds::One(_) => None,
        Bounds::Two(_, m) => Some(m),
    }
}

/// What is no array counts as an array of one (5.7).
fn or_one(count: Option<u32>) -> u32
    ensures { result ≡ spec.or_one count }
{
    match count {
        None => 1,
        Some(n) => n,
    }
}

/// How many elements a part has that is an array, in an object of these bounds; the end of an object counts as another such object.
#[tactic(auto, using(crate::proofs::PartLaws::none_deeper))]
pub fn count(bounds: Bounds, part: Part) -> Option<u32>
    ensures { result ≡ slice_get (list_of bounds) (depth part) }
{
    match part {
        Part::Whole => outer(bounds),
        Part::Past => outer(bounds),
        Part::Item(_) => inner(bounds),
        Part::Inner(_, _) => None,
    }
}

/// How many elements the array has of which a part is an element; an object that is none counts as the one element of an array (5.7).
pub fn bound(bounds: Bounds, part: Part) -> u32
    ensures { (T : Tables) (s : Shape) → pointers.bound_of [] (arrays (list_of bounds) (shape_type T s)) (element_of (route_of part)) ≡ result }
{
    match part {
        Part::Whole => 1,
        Part::Past => 1,
        Part::Item(_) => or_one(outer(bounds)),
        Part::Inner(_, _) => or_one(inner(bounds)),
    }
}

/// Whether a part is no end of an array, and lies in none.
pub fn is_inside(bounds: Bounds, part: Part) -> bool
    ensures inside { (T : Tables) (s : Shape) → places.is_inside [] (arrays (list_of bounds) (shape_type T s)) (route_of part) ≡ result }
    ensures end { part ≡ Past → result ≡ false }
{
    match part {
        Part::Whole => true,
        Part::Past => false,
        Part::Item(index) => is_item(outer(bounds), index),
        Part::Inner(row, index) => { is_item(inner(bounds), index) && is_item(outer(bounds), row) }
    }
}

/// Whether an array of so many elements has one of this index.
fn is_item(count: Option<u32>, index: u32) -> bool
    ensures { result ≡ spec.is_item count index }
{
    index < or_one(count)
}
