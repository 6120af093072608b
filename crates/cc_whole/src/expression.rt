use crate::types::{CConstant, CType};
use cf_base::{Arith, Boxed, Name};

/// An operator before its one operand.
#[derive(Clone, Copy, Debug, PartialEq, Eq)]
pub enum Prefix {
    /// `-`
    Negate,
    /// `~`
    Complement,
    /// `!`
    Not,
}

/// Where a value is stored and loaded.
#[cycle(expression)]
#[derive(Drop)]
pub enum CPlace {
    /// The variable, local, parameter, array or function of this name.
    Name(Name),
    /// `*(type *)(address)`
    At(CType, Boxed<CExpression>),
}

/// An expression. It has no effect but the act that it may be.
#[cycle(expression)]
#[derive(Drop)]
pub enum CExpression {
    Constant(CConstant),
    /// The value that stands at a place; of an array its address, of a function a pointer to it.
    Load(CPlace),
    Unary(Prefix, Boxed<CExpression>),
    /// `(type)operand`
    Cast(CType, Boxed<CExpression>),
    /// `(char *)&NAME`, the address of a variable, parameter or local.
    AddressOf(Name),
    Binary(Arith, Boxed<CExpression>, Boxed<CExpression>),
}
