//! What is plain data, and lists of it.

ghost use Rattle.std.specs.Prelude.{◌≡◌, ◌↔◌, IsTrue};

use cc_whole::{CConstant, CLocal, CParameter, CSignature, CType};
use cf_base::Name;

pub(crate) fn same_name(a: &Name, b: &Name) -> bool
    ensures { IsTrue result ↔ (a.now ≡ b.now) }
{
    a.as_slice() == b.as_slice()
}

pub(crate) fn same_constant(a: CConstant, b: CConstant) -> bool
    ensures { IsTrue result ↔ (a ≡ b) }
{
    a == b
}

fn same_types(a: &[CType], b: &[CType]) -> bool
    ensures { IsTrue result ↔ (a.now ≡ b.now) }
{
    match a.split_first() {
        None => b.is_empty(),
        Some((x, rest)) => match b.split_first() {
            None => false,
            Some((y, others)) => *x == *y && same_types(rest, others),
        },
    }
}

pub(crate) fn same_signature(a: &CSignature, b: &CSignature) -> bool
    ensures { IsTrue result ↔ (a.now ≡ b.now) }
{
    a.result == b.result && same_types(a.parameters.as_slice(), b.parameters.as_slice())
}

fn same_local(a: &CLocal, b: &CLocal) -> bool
    ensures { IsTrue result ↔ (a.now ≡ b.now) }
{
    a.ty == b.ty && same_name(&a.name, &b.name)
}

pub(crate) fn same_locals(a: &[CLocal], b: &[CLocal]) -> bool
    ensures { IsTrue result ↔ (a.now ≡ b.now) }
{
    match a.split_first() {
        None => b.is_empty(),
        Some((x, rest)) => match b.split_first() {
            None => false,
            Some((y, others)) => same_local(x, y) && same_locals(rest, others),
        },
    }
}

fn same_parameter(a: &CParameter, b: &CParameter) -> bool
    ensures { IsTrue result ↔ (a.now ≡ b.now) }
{
    a.ty == b.ty && same_name(&a.name, &b.name)
}

pub(crate) fn same_parameters(a: &[CParameter], b: &[CParameter]) -> bool
    ensures { IsTrue result ↔ (a.now ≡ b.now) }
{
    match a.split_first() {
        None => b.is_empty(),
        Some((x, rest)) => match b.split_first() {
            None => false,
            Some((y, others)) => same_parameter(x, y) && same_parameters(rest, others),
        },
    }
}
