//! Whole files with what elaboration answers: taken, or the first broken rule and its place. There are tests alone: each answer is worked out by hand
//! from the rules.
#![tactic(auto)]

#[cfg(test)]
mod answers;
#[cfg(test)]
mod rows;
#[cfg(test)]
mod tests;
