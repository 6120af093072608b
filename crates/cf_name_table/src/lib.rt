//! Names that are kept in order, and found by a table.
#![tactic(auto)]

mod name_table;

pub use name_table::NameTable;

#[cfg(test)]
mod tests;
