ghost use Rattle.cf_core_place.specs.Routes.{IsElement};

/// A part of an object, or an end of an array in it.
#[derive(Clone, Copy, Debug, PartialEq, Eq)]
pub enum Part {
    Whole,
    /// One past the whole object (5.7).
    Past,
    /// The element of this index.
    Item(u32),
    /// The element of the second index of the element of the first, which is an array.
    Inner(u32, u32),
}

/// A part of the object of this number.
#[derive(Clone, Copy, Debug, PartialEq, Eq)]
pub struct Place {
    pub object: usize,
    pub part: Part,
}

/// The element of this index of a part that is an array. Ends have none, and elements of elements are no arrays.
pub fn item(part: Part, index: u32) -> Option<Part>
    ensures { IsElement part index result }
{
    match part {
        Part::Whole => Some(Part::Item(index)),
        Part::Item(row) => Some(Part::Inner(row, index)),
        _ => None,
    }
}
