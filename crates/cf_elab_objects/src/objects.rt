//! What declarations of objects and type names ask and change, while a file is elaborated (3.3, 6.7, 7.1, 8.4).
//!
//! Each function does a row of the definitions of elaboration, or a step of one, and its contract cites it by its name in `specs/Shut`.

mod aliases;
mod asked;
mod blocks;
mod linkage;
mod numbers;
mod says;

pub use aliases::{aliased, check_no_initialiser, plain_name};
pub use asked::{needs_initialiser, static_of};
pub use blocks::{block_object, declare_in_block};
pub use linkage::declare_linked;
pub use numbers::{constant_number, number_known};
pub use says::Says;
