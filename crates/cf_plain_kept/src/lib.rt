//! What the registers of plain statements hold: each is set before it is used, and holds there what the action takes.
//!
//! A register may hold values of several types in one function, one after the other. `specs/Kept` computes what each holds at each place, and tells
//! whether the operands of every action are what it takes.
#![tactic(auto)]
