//! Expressions, declarators, parameters and types (5, 8).
//!
//! Each walk gives whether the constants of its part are of their types.

ghost use Rattle.std.specs.Prelude.{◌≡◌, map};
ghost use Rattle.std.specs.Option.{option_map};
ghost use Rattle.cf_elab_valid.specs.Constants as constants;

use crate::constants::{character_fits, integer_fits};
use cf_base::Boxed;
use cf_syntax::{DeclTree, Expr, Param, TypeId};

/// An expression (5).
#[cycle(trees)]
pub fn expression(e: &Expr) -> bool
    ensures { result ≡ constants.constants_fit e.now }
{
    match e {
        Expr::Int(_, value, kind) => integer_fits(*value, *kind),
        Expr::Char(_, value) => character_fits(*value),
        Expr::Text(_, _) | Expr::This(_) | Expr::Named(_) => true,
        Expr::Paren(_, a)
        | Expr::Dot(_, a, _)
        | Expr::Arrow(_, a, _)
        | Expr::StepAfter(_, _, a)
        | Expr::StepBefore(_, _, a)
        | Expr::Prefix(_, _, a)
        | Expr::SizeofExpr(_, a)
        | Expr::Delete(_, _, _, a) => expression(a.get()),
        Expr::BasicCall(_, _, all) | Expr::TypeCall(_, _, all) | Expr::Comma(_, all) => {
            expressions(all.as_slice())
        }
        Expr::Call(_, f, all) => expression(f.get()) && expressions(all.as_slice()),
        Expr::SizeofType(_, t) => type_id(t.get()),
        Expr::New(_, _, _, _, bounds, _, all) => {
            expressions(bounds.as_slice()) && expressions(all.as_slice())
        }
        Expr::NewBracketed(_, _, t, _, all) => type_id(t.get()) && expressions(all.as_slice()),
        Expr::Cast(_, t, a) => type_id(t.get()) && expression(a.get()),
        Expr::Index(_, a, b) | Expr::Assign(_, _, a, b) | Expr::Binary(_, _, a, b) => {
            expression(a.get()) && expression(b.get())
        }
        Expr::Conditional(_, c, a, b) => {
            expression(c.get()) && expression(a.get()) && expression(b.get())
        }
    }
}

/// Expressions in order.
#[cycle(trees)]
pub fn expressions(all: &[Expr]) -> bool
    ensures { result ≡ constants.all_of (map constants.constants_fit all.now) }
{
    for e in all {
        if !expression(e) {
            return false;
        }
    }
    true
}

/// The bound of an array, if there is one (8.2.4).
#[cycle(trees)]
fn bound(e: &Option<Boxed<Expr>>) -> bool
    ensures { result ≡ constants.maybe_of (option_map constants.constants_fit e.now) }
{
    match e {
        None => true,
        Some(e) => expression(e.get()),
    }
}

/// A declarator (8).
#[cycle(trees)]
pub fn declarator(d: &DeclTree) -> bool
    ensures { result ≡ constants.declarator_fits d.now }
{
    match d {
        DeclTree::Unnamed | DeclTree::Declared(_) => true,
        DeclTree::Pointed(_, d) | DeclTree::Bracketed(_, d) => declarator(d.get()),
        DeclTree::Function(_, d, all, _) => declarator(d.get()) && params(all.as_slice()),
        DeclTree::Array(_, d, b) => declarator(d.get()) && bound(b),
    }
}

/// A parameter (8.2.5).
#[cycle(trees)]
fn param(p: &Param) -> bool
    ensures { result ≡ constants.parameter_fits p.now }
{
    declarator(p.declarator.get())
}

/// Parameters in order.
#[cycle(trees)]
fn params(all: &[Param]) -> bool
    ensures { result ≡ constants.all_of (map constants.parameter_fits all.now) }
{
    for p in all {
        if !param(p) {
            return false;
        }
    }
    true
}

/// A type in brackets (8.1).
#[cycle(trees)]
fn type_id(t: &TypeId) -> bool
    ensures { result ≡ constants.type_id_fits t.now }
{
    declarator(t.declarator.get())
}
