//! Statements and functions (6, 8.3).
//!
//! Each walk gives the byte place of the first form of its part that is not built; none where all are.

ghost use Rattle.std.specs.Prelude.{◌≡◌, map};
ghost use Rattle.std.specs.Option.{option_map};
ghost use Rattle.cf_elab.specs.Built as built;
ghost use Rattle.cf_elab_built.specs.Built.Parts as parts;

use crate::built::declarations::{declaration, specifiers};
use crate::built::expressions::{declarator, expression};
use crate::built::place::first;
use cf_base::Boxed;
use cf_syntax::Expr;
use cf_unit::{FunctionDef, MemberInit, Stmt};

/// An expression that may be absent.
fn maybe_expression(e: &Option<Boxed<Expr>>) -> Option<u32>
    ensures { result ≡ built.maybe_expression e.now }
{
    match e {
        None => None,
        Some(e) => expression(e.get()),
    }
}

/// A statement (6).
#[cycle(statements)]
fn statement(s: &Stmt) -> Option<u32>
    ensures { result ≡ parts.statement s.now }
{
    match s {
        Stmt::Declaration(d) => declaration(d.get()),
        Stmt::Block(_, all) => statements(all.as_slice()),
        Stmt::Empty(_) | Stmt::Default(_) | Stmt::Break(_) | Stmt::Continue(_) => None,
        Stmt::Expression(_, e) | Stmt::Case(_, e) => expression(e.get()),
        Stmt::If(_, e, yes, no) => {
            first(
                expression(e.get()),
                first(statement(yes.get()), maybe_statement(no)),
            )
        }
        Stmt::While(_, e, body) => first(expression(e.get()), statement(body.get())),
        Stmt::Do(_, body, e) => first(statement(body.get()), expression(e.get())),
        Stmt::For(_, start, e, step, body) => {
            let behind = first(maybe_expression(step), statement(body.get()));
            first(statement(start.get()), first(maybe_expression(e), behind))
        }
        Stmt::Switch(_, e, all) => first(expression(e.get()), statements(all.as_slice())),
        Stmt::Return(_, e) => maybe_expression(e),
    }
}

/// The statement behind `else`, if there is one (6.4.1).
#[cycle(statements)]
fn maybe_statement(s: &Option<Boxed<Stmt>>) -> Option<u32>
    ensures { result ≡ built.maybe (option_map parts.statement s.now) }
{
    match s {
        None => None,
        Some(s) => statement(s.get()),
    }
}

/// Statements in order.
#[cycle(statements)]
fn statements(all: &[Stmt]) -> Option<u32>
    ensures { result ≡ built.first_of (map parts.statement all.now) }
{
    let mut found = None;
    for s in all {
        found = first(found, statement(s));
    }
    found
}

/// What stands behind `:` of a constructor is not built (12.6.2).
fn member_inits(all: &[MemberInit]) -> Option<u32>
    ensures { result ≡ built.first_of (map built.of_member_init all.now) }
{
    let mut found = None;
    for i in all {
        found = first(found, Some(i.path.at));
    }
    found
}

/// A function with its body (8.3).
pub fn function(f: &FunctionDef) -> Option<u32>
    ensures { result ≡ parts.function f.now }
{
    let body = first(
        member_inits(f.initialisers.as_slice()),
        statements(f.body.as_slice()),
    );
    let behind = first(declarator(f.declarator.get()), body);
    first(specifiers(f.specifiers.as_slice()), behind)
}
