ghost use Rattle.std.specs.Prelude.{◌≡◌, length, map, option_map};
ghost use Rattle.cc_whole.specs.Plain.{place_of, expression_of, callee_of};
ghost use Rattle.cc_whole_limits.specs.Nodes as spec;
ghost use Rattle.cc_whole_limits.specs.Sums.{capped_plus};

use crate::sums::sum;
use cc_whole::{CCallee, CExpression, CPlace};
use cf_base::Boxed;

/// The nodes of an expression.
#[cycle(nodes)]
pub fn expression(e: &CExpression) -> u64
    ensures { result ≡ spec.nodes capped_plus (expression_of e.now) }
{
    match e {
        CExpression::Constant(_) => 1,
        CExpression::Load(p) => sum(1, place(p)),
        CExpression::Unary(_, e) => sum(1, expression(e.get())),
        CExpression::Cast(_, e) => sum(1, expression(e.get())),
        CExpression::AddressOf(_) => 1,
        CExpression::Binary(_, a, b) => {
            let left = expression(a.get());
            let right = expression(b.get());
            sum(1, sum(left, right))
        }
    }
}

/// The nodes of a place.
#[cycle(nodes)]
pub fn place(p: &CPlace) -> u64
    ensures { result ≡ spec.place_nodes capped_plus (place_of p.now) }
{
    match p {
        CPlace::Name(_) => 1,
        CPlace::At(_, e) => sum(1, expression(e.get())),
    }
}

/// The nodes of arguments.
pub fn arguments(all: &[CExpression]) -> u64
    ensures { result ≡ spec.all_nodes capped_plus 0 (map expression_of all.now) }
{
    let mut count = 0;
    for item in all {
        count = sum(count, expression(item));
    }
    count
}

/// The nodes of the place that gets a result, if there is one.
pub fn target(p: &Option<CPlace>) -> u64
    ensures { result ≡ spec.target_nodes capped_plus (option_map place_of p.now) }
{
    match p {
        None => 0,
        Some(p) => place(p),
    }
}

/// The nodes of what is called.
pub fn callee(c: &CCallee) -> u64
    ensures { result ≡ spec.callee_nodes capped_plus (callee_of c.now) }
{
    match c {
        CCallee::Name(_) => 1,
        CCallee::Pointer(signature, e) => {
            let inner = expression(e.get());
            sum(1, sum(signature.parameters.len() as u64, inner))
        }
    }
}

/// The nodes of what is returned.
pub fn given(e: &Option<Boxed<CExpression>>) -> u64
    ensures { result ≡ spec.given_nodes capped_plus (option_map expression_of e.now) }
{
    match e {
        None => 0,
        Some(e) => expression(e.get()),
    }
}
