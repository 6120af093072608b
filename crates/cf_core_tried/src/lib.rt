//! Files of the manual's language, each built by hand as the trees that its core is, and run in the plain program: the functions that are entered, what
//! is taken and put, the end and the ticks. There are tests alone, and each answer is worked out by hand.
#![tactic(auto)]

#[cfg(test)]
mod arrays;
#[cfg(test)]
mod build;
#[cfg(test)]
mod calls;
#[cfg(test)]
mod enumerations;
#[cfg(test)]
mod file;
#[cfg(test)]
mod integers;
#[cfg(test)]
mod order;
#[cfg(test)]
mod references;
#[cfg(test)]
mod shapes;
#[cfg(test)]
mod streams;
#[cfg(test)]
mod ticks;
#[cfg(test)]
mod trial;
#[cfg(test)]
mod units;
