//! Files with what the definitions of elaboration make of their expressions and declarations: accepted, or the first broken rule with its place.
//!
//! Each answer is worked out by hand from the rows of the constructs. `proofs/` has a row for each file: its tree, and that the definitions
//! give this answer.
#![tactic(auto)]

mod allocations;
mod assignments;
mod binaries;
mod calls;
mod casts;
mod choices;
mod declarations;
mod members;
mod names;
mod sizes;
mod steps;
mod subscripts;
mod types_with_arguments;
mod unaries;
mod updates;

pub use allocations::ALLOCATIONS;
pub use assignments::ASSIGNMENTS;
pub use binaries::BINARIES;
pub use calls::CALLS;
pub use casts::CASTS;
pub use choices::CHOICES;
pub use declarations::DECLARATIONS;
pub use members::MEMBERS;
pub use names::NAMES;
pub use sizes::SIZES;
pub use steps::STEPS;
pub use subscripts::SUBSCRIPTS;
pub use types_with_arguments::TYPES_WITH_ARGUMENTS;
pub use unaries::UNARIES;
pub use updates::UPDATES;
