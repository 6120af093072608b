//! The tables: of each construct its rules, and the orders of two of them. `$` stands where the rule is broken, and is no part of the text; 0 is the
//! rule of a file that is taken.

pub mod declarations;
pub mod expressions;
pub mod objects;
pub mod statements;
pub mod whole;
