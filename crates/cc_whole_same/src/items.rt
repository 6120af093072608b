ghost use Rattle.std.specs.Prelude.{◌≡◌, ◌↔◌, IsTrue};

use crate::bodies::same_body;
use crate::lists::{same_constant, same_name, same_parameters};
use cc_whole::{CFunction, CInitialiser, CItem, CPair, CPrototype, CVariable};
use cf_base::Name;

fn same_prototype(a: &CPrototype, b: &CPrototype) -> bool
    ensures { IsTrue result ↔ (a.now ≡ b.now) }
{
    a.is_static == b.is_static
        && a.result == b.result
        && same_name(&a.name, &b.name)
        && same_parameters(a.parameters.as_slice(), b.parameters.as_slice())
}

fn same_function(a: &CFunction, b: &CFunction) -> bool
    ensures { IsTrue result ↔ (a.now ≡ b.now) }
{
    a.is_shared == b.is_shared
        && same_prototype(&a.prototype, &b.prototype)
        && same_body(&a.body, &b.body)
}

/// The function of a pair.
fn same_pointed(a: &Option<Name>, b: &Option<Name>) -> bool
    ensures { IsTrue result ↔ (a.now ≡ b.now) }
{
    match (a, b) {
        (None, None) => true,
        (Some(x), Some(y)) => same_name(x, y),
        _ => false,
    }
}

fn same_pair(a: &CPair, b: &CPair) -> bool
    ensures { IsTrue result ↔ (a.now ≡ b.now) }
{
    same_constant(a.number, b.number) && same_pointed(&a.function, &b.function)
}

fn same_pairs(a: &[CPair], b: &[CPair]) -> bool
    ensures { IsTrue result ↔ (a.now ≡ b.now) }
{
    match a.split_first() {
        None => b.is_empty(),
        Some((x, rest)) => match b.split_first() {
            None => false,
            Some((y, others)) => same_pair(x, y) && same_pairs(rest, others),
        },
    }
}

fn same_start(a: &CInitialiser, b: &CInitialiser) -> bool
    ensures { IsTrue result ↔ (a.now ≡ b.now) }
{
    match (a, b) {
        (CInitialiser::Text(x), CInitialiser::Text(y)) => same_name(x, y),
        (CInitialiser::Pairs(xs), CInitialiser::Pairs(ys)) => {
            same_pairs(xs.as_slice(), ys.as_slice())
        }
        _ => false,
    }
}

fn same_started(a: &Option<CInitialiser>, b: &Option<CInitialiser>) -> bool
    ensures { IsTrue result ↔ (a.now ≡ b.now) }
{
    match (a, b) {
        (None, None) => true,
        (Some(x), Some(y)) => same_start(x, y),
        _ => false,
    }
}

fn same_variable(a: &CVariable, b: &CVariable) -> bool
    ensures { IsTrue result ↔ (a.now ≡ b.now) }
{
    a.is_shared == b.is_shared
        && a.is_static == b.is_static
        && a.ty == b.ty
        && same_name(&a.name, &b.name)
        && same_started(&a.initialiser, &b.initialiser)
}

/// Whether two items are equal trees.
pub fn same_item(a: &CItem, b: &CItem) -> bool
    ensures { IsTrue result ↔ (a.now ≡ b.now) }
{
    match (a, b) {
        (CItem::Prototype(p), CItem::Prototype(q)) => same_prototype(p, q),
        (CItem::Extern(t, n), CItem::Extern(u, m)) => *t == *u && same_name(n, m),
        (CItem::Function(f), CItem::Function(g)) => same_function(f, g),
        (CItem::Variable(v), CItem::Variable(w)) => same_variable(v, w),
        _ => false,
    }
}
