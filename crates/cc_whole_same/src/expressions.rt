ghost use Rattle.std.specs.Prelude.{◌≡◌, ◌↔◌, IsTrue};

use crate::lists::{same_constant, same_name, same_signature};
use cc_whole::{CCallee, CExpression, CPlace};
use cf_base::Boxed;

#[cycle(expressions)]
pub(crate) fn same_expression(a: &CExpression, b: &CExpression) -> bool
    ensures { IsTrue result ↔ (a.now ≡ b.now) }
{
    match (a, b) {
        (CExpression::Constant(c), CExpression::Constant(d)) => same_constant(*c, *d),
        (CExpression::Load(p), CExpression::Load(q)) => same_place(p, q),
        (CExpression::Unary(o, x), CExpression::Unary(p, y)) => {
            *o == *p && same_expression(x.get(), y.get())
        }
        (CExpression::Cast(t, x), CExpression::Cast(u, y)) => {
            *t == *u && same_expression(x.get(), y.get())
        }
        (CExpression::AddressOf(n), CExpression::AddressOf(m)) => same_name(n, m),
        (CExpression::Binary(o, x, y), CExpression::Binary(p, z, w)) => {
            *o == *p && same_expression(x.get(), z.get()) && same_expression(y.get(), w.get())
        }
        _ => false,
    }
}

#[cycle(expressions)]
pub(crate) fn same_place(a: &CPlace, b: &CPlace) -> bool
    ensures { IsTrue result ↔ (a.now ≡ b.now) }
{
    match (a, b) {
        (CPlace::Name(n), CPlace::Name(m)) => same_name(n, m),
        (CPlace::At(t, x), CPlace::At(u, y)) => *t == *u && same_expression(x.get(), y.get()),
        _ => false,
    }
}

pub(crate) fn same_expressions(a: &[CExpression], b: &[CExpression]) -> bool
    ensures { IsTrue result ↔ (a.now ≡ b.now) }
{
    match a.split_first() {
        None => b.is_empty(),
        Some((x, rest)) => match b.split_first() {
            None => false,
            Some((y, others)) => same_expression(x, y) && same_expressions(rest, others),
        },
    }
}

/// Where the result of a call is put, if it is.
pub(crate) fn same_target(a: &Option<CPlace>, b: &Option<CPlace>) -> bool
    ensures { IsTrue result ↔ (a.now ≡ b.now) }
{
    match (a, b) {
        (None, None) => true,
        (Some(p), Some(q)) => same_place(p, q),
        _ => false,
    }
}

/// What is returned, if anything is.
pub(crate) fn same_given(a: &Option<Boxed<CExpression>>, b: &Option<Boxed<CExpression>>) -> bool
    ensures { IsTrue result ↔ (a.now ≡ b.now) }
{
    match (a, b) {
        (None, None) => true,
        (Some(x), Some(y)) => same_expression(x.get(), y.get()),
        _ => false,
    }
}

pub(crate) fn same_callee(a: &CCallee, b: &CCallee) -> bool
    ensures { IsTrue result ↔ (a.now ≡ b.now) }
{
    match (a, b) {
        (CCallee::Name(n), CCallee::Name(m)) => same_name(n, m),
        (CCallee::Pointer(s, x), CCallee::Pointer(t, y)) => {
            same_signature(s, t) && same_expression(x.get(), y.get())
        }
        _ => false,
    }
}
