use crate::expression::{CExpression, CPlace};
use crate::types::{CConstant, CLocalType, CSignature};
use cf_base::{Boxed, Items, Name};

/// A local of a body.
#[derive(Debug, Drop)]
pub struct CLocal {
    pub ty: CLocalType,
    pub name: Name,
}

/// What a call calls.
#[derive(Drop)]
pub enum CCallee {
    /// The function of this name.
    Name(Name),
    /// The function that a pointer points to, called with this type.
    Pointer(CSignature, Boxed<CExpression>),
}

/// Its locals live while its statements run.
#[cycle(body)]
#[derive(Drop)]
pub struct CBody {
    pub locals: Items<CLocal>,
    pub statements: Items<CStatement>,
}

#[cycle(body)]
#[derive(Drop)]
pub enum CStatement {
    /// `place = expression;`
    Assign(CPlace, Boxed<CExpression>),
    /// `[place =] callee(arguments);`
    Call(Option<CPlace>, CCallee, Items<CExpression>),
    Block(Boxed<CBody>),
    Break,
    Continue,
    /// `if (expression) body [else body]`
    If(Boxed<CExpression>, Boxed<CBody>, Option<Boxed<CBody>>),
    /// `for (;;) body`
    Loop(Boxed<CBody>),
    /// `switch (expression) { items }`
    Switch(Boxed<CExpression>, Items<CSwitchItem>),
    Return(Option<Boxed<CExpression>>),
}

/// What stands in the braces of a `switch`.
#[cycle(body)]
#[derive(Drop)]
pub enum CSwitchItem {
    /// `case constant:`
    Case(CConstant),
    /// `default:`
    Default,
    Statement(CStatement),
}
