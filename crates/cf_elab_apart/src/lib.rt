//! Constants name no local: a value that is fixed, or has a known number and is no place, is typed the same outside of the function at hand (5.19, 8.4).
//!
//! `specs/Apart` says what it is to be apart, of values, operands and initialisers; `specs/Laws` the laws of expressions and of what starts a static object.
//! `proofs/Alike` has a law a node; `proofs/Answers` what is known of answers; `proofs/Settled`, `Fit` and `Kinds` go through the conversions; `proofs/Bare` has the
//! rows that give neither a number nor a fixed place; `proofs/Names`, `Operators`, `Binary`, `Choice` and `Casts` the others; `proofs/Parts` and `Expressions` the
//! induction; and `proofs/Plans`, `Initial` and `Starts` what starts an object.
#![tactic(auto)]

mod laws;

pub use laws::{expressions_are_apart, starts_are_apart};
