use crate::declaration::Declaration;
use cf_base::{Boxed, Items};
use cf_syntax::Expr;

/// A statement (6). The first field of each variant but `Declaration` is its place in bytes: its keyword's, or its
/// first token's.
#[cycle(statements)]
#[derive(Drop)]
pub enum Stmt {
    /// A declaration (6.7).
    Declaration(Boxed<Declaration>),
    /// Statements in braces (6.3).
    Block(u32, Items<Stmt>),
    /// `;` alone (6.2).
    Empty(u32),
    /// An expression (6.2).
    Expression(u32, Boxed<Expr>),
    /// `if` with what follows where the condition holds, and what follows `else` (6.4.1).
    If(u32, Boxed<Expr>, Boxed<Stmt>, Option<Boxed<Stmt>>),
    /// `while` (6.5.1)
    While(u32, Boxed<Expr>, Boxed<Stmt>),
    /// `do` (6.5.2)
    Do(u32, Boxed<Stmt>, Boxed<Expr>),
    /// `for`: its first part, which is a declaration, an expression or empty, its condition, its last expression
    /// and its body (6.5.3).
    For(u32, Boxed<Stmt>, Option<Boxed<Expr>>, Option<Boxed<Expr>>, Boxed<Stmt>),
    /// `switch` with what stands in its braces (6.4.2).
    Switch(u32, Boxed<Expr>, Items<Stmt>),
    /// `case c:`, in the braces of a `switch` (6.1).
    Case(u32, Boxed<Expr>),
    /// `default:`, in the braces of a `switch` (6.1).
    Default(u32),
    /// `break;` (6.6.1)
    Break(u32),
    /// `continue;` (6.6.2)
    Continue(u32),
    /// `return` (6.6.3)
    Return(u32, Option<Boxed<Expr>>),
}
