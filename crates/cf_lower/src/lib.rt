//! Lowering, in definitions: the whole small C that plain statements become.
#![tactic(auto)]
