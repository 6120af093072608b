//! What the registers of plain statements hold, as far as what is written depends on it.
//!
//! Of an integer it does not matter which kinds have it. `scene` is what the statements of a function stand in, `held` what one register holds,
//! `meeting` what it holds where two ways meet, `registers` what they all hold, `acts` what an action gives, and `forgets` what is left where
//! statements run any number of times.
#![tactic(auto)]

mod acts;
mod forgets;
mod held;
mod meeting;
mod registers;
mod scene;

pub use acts::kept_by;
pub use forgets::forget;
pub use held::{Argument, Held, argument_in, holds_function, holds_integer, place_in};
pub use registers::Registers;
pub use scene::{Scene, is_argument, type_of_local};
