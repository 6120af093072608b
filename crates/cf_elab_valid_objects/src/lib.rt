//! Initialisers and automatic objects in the core that elaboration makes: laws over `cf_elab_valid`, whose `Fine` chains rows.
//!
//! An initialiser starts an object or a reference of its type, whatever keeps a temporary (`specs/Starts`). An expression leaves all but the types
//! and the count of literals, and an initialiser leaves the names (`specs/Quiet`), so the declaration of an automatic object fits the function at
//! hand (`specs/Declared`). `specs/Laws` says it.
#![tactic(auto)]

mod laws;

pub use laws::{
    expressions_are_quiet, initialisers_are_valid, initialisers_leave_names, keepers_are_valid,
    locals_are_valid,
};
