//! Places in objects that are scalars or arrays of scalars: the whole object, an element, and the ends behind them.
#![tactic(auto)]

mod compared;
mod goal;
mod moving;
mod part;
mod sizes;

pub use compared::{lies_in, same_array, same_part};
pub use goal::{Goal, Inside, Row};
pub use moving::{array, further, index, with_index};
pub use part::{Part, Place, item};
pub use sizes::{bound, count, is_inside};
