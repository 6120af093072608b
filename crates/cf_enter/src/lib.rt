//! What declarations enter, and where (3.2, 7.1.6, 9.1, 11.4).
#![tactic(auto)]

mod classes;
mod declarator;
mod declaring;
mod given;
mod parameters;
mod paths;

pub use classes::{class_to_define, named_class};
pub use declarator::{declared_name, has_params, is_bare, plain_name};
pub use declaring::enter;
pub use given::give;
pub use parameters::{enter_params, param_names};
pub use paths::{path_kind, some_type};
