//! The items of the units that are linked, in order, each as it stands in its unit and as it stands in the program.
#![tactic(auto)]

mod item;
mod placed;
mod statics;
mod units;

pub use item::{is_definition, is_shared, name_of};
pub use placed::PlacedItem;
pub use units::all_placed;
