//! What stands around the statements of a function, in loops and switches, how both programs end by it, and what is so between two statements. As definitions and lemmas;
//! nothing here runs.
#![tactic(auto)]
