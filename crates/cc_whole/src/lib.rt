//! The small C as a whole: its trees, and in `specs/` its texts, validity and linking.
//!
//! A unit is what one text holds, and a program is what linking makes of units. Brackets round an expression
//! make no node, and trees have no places, so two texts of one unit have equal trees.
#![tactic(auto)]

mod expression;
mod statement;
mod types;
mod unit;

pub use expression::{CExpression, CPlace, Prefix};
pub use statement::{CBody, CCallee, CLocal, CStatement, CSwitchItem};
pub use types::{CConstant, CLocalType, CSignature, CType, CVariableType};
pub use unit::{
    CFunction, CInitialiser, CItem, CPair, CParameter, CProgram, CPrototype, CUnit, CVariable,
};
