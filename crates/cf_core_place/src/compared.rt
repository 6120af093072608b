ghost use Rattle.std.specs.Prelude.{◌≡◌};
ghost use Rattle.cf_core.specs.Places.{route_eq, is_beyond};
ghost use Rattle.cf_core_place.specs.Routes.{route_of, same_element};

use crate::part::Part;

/// Whether two parts are the same.
pub fn same_part(p: Part, q: Part) -> bool
    ensures { result ≡ route_eq (route_of p) (route_of q) }
{
    match (p, q) {
        (Part::Whole, Part::Whole) => true,
        (Part::Past, Part::Past) => true,
        (Part::Item(i), Part::Item(j)) => i == j,
        (Part::Inner(i, k), Part::Inner(j, l)) => k == l && i == j,
        _ => false,
    }
}

/// Whether two parts are elements of one array, or of one object that is none (5.7).
pub fn same_array(p: Part, q: Part) -> bool
    ensures { result ≡ same_element (route_of p) (route_of q) }
{
    match (p, q) {
        (Part::Item(_), Part::Item(_)) => true,
        (Part::Inner(i, _), Part::Inner(j, _)) => i == j,
        (Part::Whole | Part::Past, Part::Whole | Part::Past) => true,
        _ => false,
    }
}

/// Whether a part is another one or lies in it.
pub fn lies_in(p: Part, q: Part) -> bool
    ensures { result ≡ is_beyond (route_of p) (route_of q) }
{
    match (p, q) {
        (_, Part::Whole) => true,
        (Part::Inner(i, _), Part::Item(j)) => i == j,
        _ => same_part(p, q),
    }
}
