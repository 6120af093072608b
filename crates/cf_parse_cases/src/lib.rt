//! Files with what the grammar makes of them. There are tests alone: each file's answer is worked out by hand.
#![tactic(auto)]

#[cfg(test)]
mod cases;
#[cfg(test)]
mod shapes;
#[cfg(test)]
mod tests;
