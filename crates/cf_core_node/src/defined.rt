ghost use Rattle.std.specs.Prelude.{◌≡◌, ◌==◌, find, bytes_eq};
ghost use Rattle.std.specs.Option.{option_copied};
ghost use Rattle.cf_core_node.specs.Defined as spec;
ghost use Rattle.cf_core_node.specs.declared.defined.FunctionHead.{FunctionHead as Head};
ghost use Rattle.cf_core_node.specs.declared.defined.StaticHead.{StaticHead as Object};

use cf_base::{Items, Name};
use cf_types::{Fun, TyId};

/// A function that a file defines, by its link name.
#[derive(Drop)]
pub struct FunctionHead {
    pub name: Name,
    pub params: Items<TyId>,
    pub result: TyId,
}

/// A static object that a file defines, by its link name.
#[derive(Drop)]
pub struct StaticHead {
    pub name: Name,
    pub ty: TyId,
}

/// What a file defines.
#[derive(Drop)]
pub struct Defined {
    /// The names that are local to the file (3.3).
    pub own: Items<Name>,
    pub functions: Items<FunctionHead>,
    pub statics: Items<StaticHead>,
}

/// The function that a file defines by this link name.
pub(crate) fn function_named<'a>(
    functions: &'a [FunctionHead],
    name: &[u8],
) -> Option<&'a FunctionHead>
    ensures { option_copied result ≡ find (λ (h : Head). bytes_eq h.name name.now) functions.now }
{
    for h in functions {
        if h.name.as_slice() == name {
            return Some(h);
        }
    }
    None
}

/// The static object that a file defines by this link name.
pub(crate) fn static_named<'a>(statics: &'a [StaticHead], name: &[u8]) -> Option<&'a StaticHead>
    ensures { option_copied result ≡ find (λ (x : Object). bytes_eq x.name name.now) statics.now }
{
    for x in statics {
        if x.name.as_slice() == name {
            return Some(x);
        }
    }
    None
}

/// Whether two lists of types are the same.
fn same_types(a: &[TyId], b: &[TyId]) -> bool
    ensures { result ≡ bytes_eq a.now b.now }
{
    match a {
        [] => match b {
            [] => true,
            _ => false,
        },
        [x, rest @ ..] => match b {
            [] => false,
            [y, others @ ..] => {
                if *x == *y {
                    same_types(rest, others)
                } else {
                    false
                }
            }
        },
    }
}

/// Whether an object is defined with this very type.
pub(crate) fn has_type(object: &StaticHead, ty: TyId) -> bool
    ensures { result ≡ (object.now.ty == ty) }
{
    object.ty == ty
}

/// Whether a function is defined with this very type.
pub(crate) fn same_head(head: &FunctionHead, function: &Fun) -> bool
    ensures { result ≡ spec.same_head head.now function.now }
{
    head.result == function.result && same_types(head.params.as_slice(), function.params.as_slice())
}
