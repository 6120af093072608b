use crate::declarator::TypeId;
use crate::name::{Name, Path};
use crate::operator::{AssignOp, BinaryOp, PrefixOp, StepOp};
use crate::specifier::{BasicType, Pointer, TypeSpecifier};
use cf_base::{Boxed, Bytes, Items, Kind};

/// An expression (5). The first field of each variant is its place in bytes: its operator's or keyword's,
/// or its first token's.
#[cycle(ast)]
#[derive(Drop)]
pub enum Expr {
    /// An integer constant with its value and type (2.5.1).
    Int(u32, u32, Kind),
    /// A character constant (2.5.2).
    Char(u32, i8),
    /// A string literal (2.5.4).
    Text(u32, Bytes),
    /// `this` (9.3.1)
    This(u32),
    /// An expression in brackets.
    Paren(u32, Boxed<Expr>),
    /// A name (5.1).
    Named(Name),
    /// A fundamental type with arguments (5.2.3).
    BasicCall(u32, BasicType, Items<Expr>),
    /// A type's name with arguments (5.2.3).
    TypeCall(u32, Path, Items<Expr>),
    /// `a[i]`, at the bracket (5.2.1).
    Index(u32, Boxed<Expr>, Boxed<Expr>),
    /// `f(..)`, at the bracket (5.2.2).
    Call(u32, Boxed<Expr>, Items<Expr>),
    /// `e.x` (5.2.4)
    Dot(u32, Boxed<Expr>, Name),
    /// `e->x` (5.2.4)
    Arrow(u32, Boxed<Expr>, Name),
    /// `e++` or `e--` (5.2.5)
    StepAfter(u32, StepOp, Boxed<Expr>),
    /// `++e` or `--e` (5.3.1)
    StepBefore(u32, StepOp, Boxed<Expr>),
    /// A unary operator with its operand (5.3).
    Prefix(u32, PrefixOp, Boxed<Expr>),
    /// `sizeof e` (5.3.2)
    SizeofExpr(u32, Boxed<Expr>),
    /// `sizeof (T)` (5.3.2)
    SizeofType(u32, Boxed<TypeId>),
    /// `delete e`, whether `::` stands before it, and whether `[]` stands behind it (5.3.4).
    Delete(u32, bool, bool, Boxed<Expr>),
    /// `new` and a type of specifiers, pointers and bounds; whether `::` stands before it; whether brackets
    /// follow, and the arguments in them (5.3.3).
    New(u32, bool, Items<TypeSpecifier>, Items<Pointer>, Items<Expr>, bool, Items<Expr>),
    /// `new` and a type in brackets, as above (5.3.3).
    NewBracketed(u32, bool, Boxed<TypeId>, bool, Items<Expr>),
    /// `(T)e` (5.4)
    Cast(u32, Boxed<TypeId>, Boxed<Expr>),
    /// A binary operator with its operands (5.5 to 5.15).
    Binary(u32, BinaryOp, Boxed<Expr>, Boxed<Expr>),
    /// `c?a:b` (5.16)
    Conditional(u32, Boxed<Expr>, Boxed<Expr>, Boxed<Expr>),
    /// `a=b` and its kin (5.17)
    Assign(u32, AssignOp, Boxed<Expr>, Boxed<Expr>),
    /// Two or more expressions with commas between them, at the first comma (5.18).
    Comma(u32, Items<Expr>),
}
