//! What operators and conversions make of values, exactly as the manual's meaning says: arithmetic, pointers into arrays, reading,
//! writing and changing in place.
#![tactic(auto)]

mod arithmetic;
mod compared;
mod moving;
mod results;

pub use arithmetic::{truth, truth_number};
pub use results::{Applied, apply, ready};
