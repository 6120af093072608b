use crate::statement::CBody;
use crate::types::{CConstant, CType, CVariableType};
use cf_base::{Bytes, Items, Name};

#[derive(Debug, Drop)]
pub struct CParameter {
    pub ty: CType,
    pub name: Name,
}

/// The head of a function, which declares it. No result type is `void`.
#[derive(Debug, Drop)]
pub struct CPrototype {
    pub is_static: bool,
    pub result: Option<CType>,
    pub name: Name,
    pub parameters: Items<CParameter>,
}

#[derive(Drop)]
pub struct CFunction {
    /// Whether `#pragma cf_shared` stands before it: other units may define it too, equally.
    pub is_shared: bool,
    pub prototype: CPrototype,
    pub body: CBody,
}

/// An element of an array of pairs.
#[derive(Debug, Drop)]
pub struct CPair {
    pub number: CConstant,
    /// The function that the pointer points to; without one it is null.
    pub function: Option<Name>,
}

/// What stands in a variable before a run, at its front. What is behind it is 0 or null.
#[derive(Debug, Drop)]
pub enum CInitialiser {
    /// The bytes of a string, without a 0 at its end.
    Text(Bytes),
    Pairs(Items<CPair>),
}

/// The definition of a variable.
#[derive(Debug, Drop)]
pub struct CVariable {
    /// Whether `#pragma cf_shared` stands before it: other units may define it too, equally.
    pub is_shared: bool,
    pub is_static: bool,
    pub ty: CVariableType,
    pub name: Name,
    pub initialiser: Option<CInitialiser>,
}

#[derive(Drop)]
pub enum CItem {
    /// A declaration of a function, without a body.
    Prototype(CPrototype),
    /// A declaration of a variable, which another item or unit defines.
    Extern(CVariableType, Name),
    Function(CFunction),
    Variable(CVariable),
}

/// What one text holds.
#[derive(Drop)]
pub struct CUnit {
    /// Of the text's first line.
    pub version: u32,
    pub items: Items<CItem>,
}

/// What linking makes of units: it has no static item, defines `main`, and defines all that it uses but the six library functions.
#[derive(Drop)]
pub struct CProgram {
    pub items: Items<CItem>,
}
