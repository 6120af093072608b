//! The objects of a run of a core: scalars and arrays of them, each with its type and a log of what its parts hold, string literals,
//! the function that was entered last, and what reading, writing and initialising do, exactly as the manual's meaning says.
//!
//! No object's number is given twice.
#![tactic(auto)]

mod access;
mod answer;
mod ending;
mod filling;
mod integer;
mod log;
mod making;
mod object;
mod site;

pub use access::{followed, local_value, read, settle, static_value, used, whole_held, write};
pub use answer::{Stop, Value};
pub use ending::{end_objects, end_scope, end_temporaries};
pub use filling::{Array, character_kind, elements, fill_zeros, reach, write_bytes};
pub use integer::Integer;
pub use making::{literal_object, new_local, new_object, new_scalar, static_objects};
pub use object::{Cell, Entered, Held, Literal, Objects, Storage};
pub use site::{Site, Sort, is_scalar, site_at};
