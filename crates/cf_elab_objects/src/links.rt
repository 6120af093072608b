//! Link names while a file is elaborated: of functions, of objects with linkage, of static objects of blocks, and of temporaries (3.3, 8.4.3).
//!
//! A link name longer than the limit is not written to its end, since the codes of types can be far longer than the file that they stand in.

mod codes;
mod functions;
mod kinds;
mod limit;
mod objects;
mod text;

pub use functions::{main_link, plain_link};
pub use limit::check_link;
pub use objects::{local_static_name, temporary_name, variable_link};
