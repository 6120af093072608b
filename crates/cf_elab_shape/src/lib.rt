//! Declarators and the types that they make; types in brackets and of parameters.
#![tactic(auto)]

mod shapes;
mod type_ids;

pub use shapes::{
    Parameter, Position, Shape, Shaped, as_object, check_bounds, check_parameter, only_parameter,
    pointed, typed,
};
pub use type_ids::{is_stored, parameter_behind, type_behind};
