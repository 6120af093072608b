//! Statements and functions (6, 8.3).

ghost use Rattle.std.specs.Prelude.{◌≡◌, map};
ghost use Rattle.std.specs.Option.{option_map};
ghost use Rattle.cf_elab_valid.specs.Constants.{all_of};
ghost use Rattle.cf_elab_valid_files.specs.Bodies.Trees as trees;

use crate::declarations::{declaration, specifiers};
use crate::expressions::{declarator, expression};
use cf_base::Boxed;
use cf_syntax::Expr;
use cf_unit::{FunctionDef, Stmt};

/// Whether the constants of an expression that may be absent are of their types.
fn maybe_expression(e: &Option<Boxed<Expr>>) -> bool
    ensures { result ≡ trees.maybe_fits e.now }
{
    match e {
        None => true,
        Some(e) => expression(e.get()),
    }
}

/// Whether it is a label, which stands in the braces of a `switch` alone (6.1, 6.4.2).
fn is_label(s: &Stmt) -> bool
    ensures { result ≡ (trees.statement_told s.now).is_label }
{
    match s {
        Stmt::Case(_, _) | Stmt::Default(_) => true,
        Stmt::Declaration(_)
        | Stmt::Block(_, _)
        | Stmt::Empty(_)
        | Stmt::Expression(_, _)
        | Stmt::If(_, _, _, _)
        | Stmt::While(_, _, _)
        | Stmt::Do(_, _, _)
        | Stmt::For(_, _, _, _, _)
        | Stmt::Switch(_, _, _)
        | Stmt::Break(_)
        | Stmt::Continue(_)
        | Stmt::Return(_, _) => false,
    }
}

/// Whether a statement, or a label, is as those of texts are (6).
#[cycle(statements)]
fn statement(s: &Stmt) -> bool
    ensures { result ≡ (trees.statement_told s.now).well }
{
    match s {
        Stmt::Declaration(d) => declaration(d.get()),
        Stmt::Block(_, all) => statements(all.as_slice()),
        Stmt::Empty(_) | Stmt::Default(_) | Stmt::Break(_) | Stmt::Continue(_) => true,
        Stmt::Expression(_, e) | Stmt::Case(_, e) => expression(e.get()),
        Stmt::If(_, e, yes, no) => {
            expression(e.get())
                && statement(yes.get())
                && !is_label(yes.get())
                && maybe_statement(no)
        }
        Stmt::While(_, e, body) => {
            expression(e.get()) && statement(body.get()) && !is_label(body.get())
        }
        Stmt::Do(_, body, e) => {
            statement(body.get()) && !is_label(body.get()) && expression(e.get())
        }
        Stmt::For(_, start, e, step, body) => {
            statement(start.get())
                && !is_label(start.get())
                && maybe_expression(e)
                && maybe_expression(step)
                && statement(body.get())
                && !is_label(body.get())
        }
        Stmt::Switch(_, e, all) => expression(e.get()) && entries(all.as_slice()),
        Stmt::Return(_, e) => maybe_expression(e),
    }
}

/// The statement behind `else`, if there is one (6.4.1).
#[cycle(statements)]
fn maybe_statement(s: &Option<Boxed<Stmt>>) -> bool
    ensures { result ≡ trees.maybe_whole (option_map trees.statement_told s.now) }
{
    match s {
        None => true,
        Some(s) => statement(s.get()) && !is_label(s.get()),
    }
}

/// Statements in braces, none of them a label (6.3).
#[cycle(statements)]
fn statements(all: &[Stmt]) -> bool
    ensures { result ≡ all_of (map trees.is_whole (map trees.statement_told all.now)) }
{
    for s in all {
        if !statement(s) || is_label(s) {
            return false;
        }
    }
    true
}

/// What stands in the braces of a `switch`: statements and labels (6.4.2).
#[cycle(statements)]
fn entries(all: &[Stmt]) -> bool
    ensures { result ≡ all_of (map (λ (t : trees.Told). t.well) (map trees.statement_told all.now)) }
{
    for s in all {
        if !statement(s) {
            return false;
        }
    }
    true
}

/// A function with its body (8.3).
pub fn function(f: &FunctionDef) -> bool
    ensures { result ≡ trees.function_fits f.now }
{
    specifiers(f.specifiers.as_slice())
        && declarator(f.declarator.get())
        && statements(f.body.as_slice())
}
