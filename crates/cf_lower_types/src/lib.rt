//! The types of a unit of plain statements, as lowering looks at them: without const.
//!
//! A number that the unit's table does not have stands for `void`, so nothing is asked of numbers. `form` has a type by its outermost form, `place`
//! the types of places, `scalar` what scalars are, `reference` what a name of a reference's type stands for, `functions` the parameters and results
//! of functions, `sizes` the bytes of objects, and `characters` the kind of an array's characters.
#![tactic(auto)]

mod characters;
mod form;
mod functions;
mod place;
mod reference;
mod scalar;
mod sizes;
mod tables;

pub use characters::{character_kind, place_kind};
pub use form::{Elements, Form, elements_in, form_of};
pub use functions::{is_function, parameters, result_sort};
pub use place::{PlaceType, element_of, item_of, place_scalar};
pub use reference::{place_sort, referred};
pub use scalar::{Scalar, is_scalar, sort_of, sort_to};
pub use sizes::{place_size, size_of};
pub use tables::Tables;
