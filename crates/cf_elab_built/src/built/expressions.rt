//! Expressions, declarators, parameters and types (5, 8).
//!
//! Each walk gives the byte place of the first form of its part that is not built; none where all are.

ghost use Rattle.std.specs.Prelude.{◌≡◌, map};
ghost use Rattle.std.specs.Option.{option_map};
ghost use Rattle.cf_elab.specs.Built as built;
ghost use Rattle.cf_elab_built.specs.Built.Parts as parts;

use crate::built::names::{name, path, pointer, specifiers};
use crate::built::place::first;
use cf_base::Boxed;
use cf_syntax::{BinaryOp, DeclTree, Expr, Param, TypeId};

/// A binary operator at this place (5.5 to 5.15): `.*` and `->*` are not built.
fn operator(at: u32, op: BinaryOp) -> Option<u32>
    ensures { result ≡ built.of_binary at op }
{
    match op {
        BinaryOp::DotStar | BinaryOp::ArrowStar => Some(at),
        _ => None,
    }
}

/// An expression (5).
#[cycle(trees)]
pub fn expression(e: &Expr) -> Option<u32>
    ensures { result ≡ built.expression e.now }
{
    match e {
        Expr::Int(_, _, _) | Expr::Char(_, _) | Expr::Text(_, _) => None,
        Expr::This(at) => Some(*at),
        Expr::Named(n) => name(n),
        Expr::Paren(_, a)
        | Expr::StepAfter(_, _, a)
        | Expr::StepBefore(_, _, a)
        | Expr::Prefix(_, _, a)
        | Expr::SizeofExpr(_, a) => expression(a.get()),
        Expr::BasicCall(_, _, all) | Expr::Comma(_, all) => expressions(all.as_slice()),
        Expr::TypeCall(_, p, all) => first(path(p), expressions(all.as_slice())),
        Expr::Call(_, f, all) => first(expression(f.get()), expressions(all.as_slice())),
        Expr::Dot(at, a, _) | Expr::Arrow(at, a, _) => first(Some(*at), expression(a.get())),
        Expr::SizeofType(_, t) => type_id(t.get()),
        Expr::Delete(at, _, _, _)
        | Expr::New(at, _, _, _, _, _, _)
        | Expr::NewBracketed(at, _, _, _, _) => Some(*at),
        Expr::Cast(_, t, a) => first(type_id(t.get()), expression(a.get())),
        Expr::Index(_, a, b) | Expr::Assign(_, _, a, b) => {
            first(expression(a.get()), expression(b.get()))
        }
        Expr::Binary(at, op, a, b) => {
            first(
                operator(*at, *op),
                first(expression(a.get()), expression(b.get())),
            )
        }
        Expr::Conditional(_, c, a, b) => {
            first(
                expression(c.get()),
                first(expression(a.get()), expression(b.get())),
            )
        }
    }
}

/// Expressions in order.
#[cycle(trees)]
pub fn expressions(all: &[Expr]) -> Option<u32>
    ensures { result ≡ built.first_of (map built.expression all.now) }
{
    let mut found = None;
    for e in all {
        found = first(found, expression(e));
    }
    found
}

/// The bound of an array, if there is one (8.2.4).
#[cycle(trees)]
fn bound(e: &Option<Boxed<Expr>>) -> Option<u32>
    ensures { result ≡ built.maybe (option_map built.expression e.now) }
{
    match e {
        None => None,
        Some(e) => expression(e.get()),
    }
}

/// A declarator (8).
#[cycle(trees)]
pub fn declarator(d: &DeclTree) -> Option<u32>
    ensures { result ≡ built.declarator d.now }
{
    match d {
        DeclTree::Unnamed => None,
        DeclTree::Declared(n) => name(n),
        DeclTree::Pointed(p, d) => first(pointer(p), declarator(d.get())),
        DeclTree::Bracketed(_, d) => declarator(d.get()),
        DeclTree::Function(_, d, all, _) => first(declarator(d.get()), params(all.as_slice())),
        DeclTree::Array(_, d, b) => first(declarator(d.get()), bound(b)),
    }
}

/// A default argument is not built, and its place is that of the `=` (8.2.6).
fn default_argument(argument: &Option<(u32, Boxed<Expr>)>) -> Option<u32>
    ensures { result ≡ parts.default_argument argument.now }
{
    match argument {
        None => None,
        Some((at, _)) => Some(*at),
    }
}

/// A parameter (8.2.5).
#[cycle(trees)]
fn param(p: &Param) -> Option<u32>
    ensures { result ≡ parts.param p.now }
{
    let inner = first(declarator(p.declarator.get()), default_argument(&p.default));
    first(specifiers(p.specifiers.as_slice()), inner)
}

/// Parameters in order.
#[cycle(trees)]
fn params(all: &[Param]) -> Option<u32>
    ensures { result ≡ built.first_of (map parts.param all.now) }
{
    let mut found = None;
    for p in all {
        found = first(found, param(p));
    }
    found
}

/// A type in brackets (8.1).
#[cycle(trees)]
fn type_id(t: &TypeId) -> Option<u32>
    ensures { result ≡ parts.type_id t.now }
{
    first(
        specifiers(t.specifiers.as_slice()),
        declarator(t.declarator.get()),
    )
}
