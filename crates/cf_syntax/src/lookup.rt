//! Names of scopes and classes looked up.

ghost use Rattle.std.specs.Prelude.{◌≡◌, length};
ghost use Rattle.cf_syntax.specs.Entered as spec;
ghost use Rattle.cf_syntax.specs.Names.{in_class_to, in_scope, newest};

use crate::type_names::{ClassNames, NameKind, Scope};
use cf_shared::SharedVec;

/// What a class says of a name, or its bases, at most `depth` classes above one another.
pub fn kind_in_class(
    classes: &SharedVec<ClassNames>,
    depth: usize,
    class: u32,
    name: &[u8],
) -> Option<NameKind>
    ensures { result ≡ in_class_to depth classes.now name.now class }
{
    if depth == 0 {
        return None;
    }
    let found = classes.get(class as usize)?;
    if let Some(kind) = found.entries.kind(name) {
        return Some(kind);
    }
    for base in found.bases.get().as_slice() {
        if let Some(kind) = kind_in_class(classes, depth - 1, *base, name) {
            return Some(kind);
        }
    }
    None
}

/// What one open scope says of a name.
pub fn kind_in_scope(
    classes: &SharedVec<ClassNames>,
    scope: &Scope,
    name: &[u8],
) -> Option<NameKind>
    ensures { result ≡ in_scope classes.now name.now scope.now }
{
    match scope {
        Scope::Block(entries) => entries.kind(name),
        Scope::Class(class) => kind_in_class(classes, classes.len(), *class, name),
    }
}

/// What the innermost of these scopes that has the name says of it.
pub fn kind_in_scopes(
    classes: &SharedVec<ClassNames>,
    scopes: &[Scope],
    name: &[u8],
) -> Option<NameKind>
    ensures { result ≡ newest (in_scope classes.now name.now) scopes.now }
{
    let mut left = scopes.len();
    while left > 0 {
        left -= 1;
        if let Some(kind) = kind_in_scope(classes, &scopes[left], name) {
            return Some(kind);
        }
    }
    None
}

/// What a name is, if it is a type.
pub fn if_type(kind: Option<NameKind>) -> Option<NameKind>
    ensures { result ≡ spec.if_type kind }
{
    match kind {
        Some(NameKind::Value) => None,
        _ => kind,
    }
}

/// What one open scope says of a name that is a type.
fn type_in_scope(classes: &SharedVec<ClassNames>, scope: &Scope, name: &[u8]) -> Option<NameKind>
    ensures { result ≡ spec.type_in classes.now name.now scope.now }
{
    if_type(kind_in_scope(classes, scope, name))
}

/// What the innermost of these scopes where the name is a type says of it.
pub fn type_in_scopes(
    classes: &SharedVec<ClassNames>,
    scopes: &[Scope],
    name: &[u8],
) -> Option<NameKind>
    ensures { result ≡ newest (spec.type_in classes.now name.now) scopes.now }
{
    let mut left = scopes.len();
    while left > 0 {
        left -= 1;
        if let Some(kind) = type_in_scope(classes, &scopes[left], name) {
            return Some(kind);
        }
    }
    None
}

/// How many of these scopes are left where those of classes at their end are left out.
pub fn outside_classes(scopes: &[Scope]) -> usize
    ensures { result ≡ spec.outside_in (length scopes.now) scopes.now }
{
    let mut left = scopes.len();
    while left > 0 {
        if let Scope::Block(_) = &scopes[left - 1] {
            return left;
        }
        left -= 1;
    }
    0
}
