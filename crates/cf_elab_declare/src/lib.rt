//! Initialisers carried out, objects defined, declarators behind their specifiers and parts.
#![tactic(auto)]

mod declares;
mod defines;
mod starts;

pub use declares::{
    Begun, Headed, begin, check_conflict, check_no_definition, check_object, declare_function,
    declares_function, finish, function_declared, head, identifier, object_says,
};
pub use defines::{
    StaticLocal, array_given, begin_local, begin_static_local, file_defined, local_defined,
    static_defined,
};
pub use starts::{
    Written, check_constant, default_object, initialised, start_by, start_or_none, start_place,
    started,
};
