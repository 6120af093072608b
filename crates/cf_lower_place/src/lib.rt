//! Which statements of a function are lowered, by what registers hold before them: those that are no control by the types and names that they have, and branches, loops
//! and switches by what stands in them. As definitions; nothing here runs.
#![tactic(auto)]
