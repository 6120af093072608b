ghost use Rattle.std.specs.Prelude.{◌≡◌, ◌<◌, length, slice_get, Some};
ghost use Rattle.cc_whole.specs.Types as spec;
ghost use Rattle.cc_whole_valid.specs.Memory.{type_at};

use cc_whole::{CPrototype, CSignature, CType};

/// The type of a function.
#[derive(Clone, Copy)]
pub enum Signature<'a> {
    /// As its prototype declares it.
    Declared(&'a CPrototype),
    /// As a call writes it.
    Written(&'a CSignature),
    /// A result and the types of parameters.
    Of(Option<CType>, &'a [CType]),
}

impl<'a> Signature<'a> {
    pub fn result(self) -> Option<CType>
        ensures { result ≡ (type_at self.entry).result }
    {
        match self {
            Signature::Declared(p) => p.result,
            Signature::Written(s) => s.result,
            Signature::Of(t, _) => t,
        }
    }

    /// How many parameters it has.
    pub fn len(self) -> usize
        ensures { result ≡ length (type_at self.entry).parameters }
    {
        match self {
            Signature::Declared(p) => p.parameters.len(),
            Signature::Written(s) => s.parameters.len(),
            Signature::Of(_, types) => types.len(),
        }
    }

    /// The type of a parameter.
    pub fn parameter(self, index: usize) -> CType
        requires { index < length (type_at self).parameters }
        ensures { slice_get (type_at self.entry).parameters index ≡ Some result }
    {
        match self {
            Signature::Declared(p) => p.parameters.as_slice()[index].ty,
            Signature::Written(s) => s.parameters.as_slice()[index],
            Signature::Of(_, types) => types[index],
        }
    }
}

fn same_result(a: Option<CType>, b: Option<CType>) -> bool
    ensures { result ≡ spec.same_result a b }
{
    match (a, b) {
        (None, None) => true,
        (Some(s), Some(t)) => s.is(t),
        (None, Some(_)) => false,
        (Some(_), None) => false,
    }
}

/// Whether parameters have the same types.
fn same_types(a: Signature<'_>, b: Signature<'_>) -> bool
    ensures { result ≡ spec.same_types (type_at a.entry).parameters (type_at b.entry).parameters }
{
    if a.len() != b.len() {
        return false;
    }
    for index in 0..a.len() {
        if !a.parameter(index).is(b.parameter(index)) {
            return false;
        }
    }
    true
}

/// Whether two functions have the same type.
pub fn same_signature(a: Signature<'_>, b: Signature<'_>) -> bool
    ensures { result ≡ spec.same_signature (type_at a.entry) (type_at b.entry) }
{
    same_result(a.result(), b.result()) && same_types(a, b)
}
