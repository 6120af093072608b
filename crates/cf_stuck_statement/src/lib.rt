//! Where an element has no spelling (17): statements.
//!
//! A finder goes through tokens that a rule cannot read, and answers the first element in their braces that has no spelling. It
//! reads past what can be read, and goes into the element that cannot. The finders take the function that reads what
//! stands inside, and the function that finds what is stuck inside, as parameters.
#![tactic(auto)]

mod blocks;
mod choice;
mod finder;
mod parts;
mod passing;
mod rows;
mod spot;

pub use finder::Finder;
pub use spot::Spot;
