//! Link names, and what declarations of objects and type names ask and change.
#![tactic(auto)]

mod links;
mod objects;

pub use links::{
    check_link, local_static_name, main_link, plain_link, temporary_name, variable_link,
};
pub use objects::{
    Says, aliased, block_object, check_no_initialiser, constant_number, declare_in_block,
    declare_linked, needs_initialiser, number_known, plain_name, static_of,
};
