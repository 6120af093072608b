//! The law that whole programs of lowered files are to meet, as a definition; nothing here runs.
#![tactic(auto)]
