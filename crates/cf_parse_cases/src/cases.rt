//! The tables.

pub mod bodies;
pub mod choices;
pub mod classes;
pub mod names;
pub mod nested;
pub mod places;
pub mod programs;
pub mod rich;
