//! Programs and units of the whole small C, written as its texts: how a program runs, and whether a unit is valid. There are
//! tests alone, and each answer is worked out by hand.
#![tactic(auto)]

#[cfg(test)]
mod acts;
#[cfg(test)]
mod calls;
#[cfg(test)]
mod library;
#[cfg(test)]
mod memory;
#[cfg(test)]
mod outside;
#[cfg(test)]
mod reader;
#[cfg(test)]
mod statements;
#[cfg(test)]
mod trial;
#[cfg(test)]
mod validity;
#[cfg(test)]
mod values;
