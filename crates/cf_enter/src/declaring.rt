//! Declarators that enter their names (3.2, 11.4, 12.1).

ghost use Rattle.std.specs.Prelude.{◌≡◌, ◌∷◌, OnOk};
ghost use Rattle.cf_unit.specs.Declares.{shape, plain_name};
ghost use Rattle.cf_syntax.specs.Names.{no_names};
ghost use Rattle.cf_unit.specs.Enters as spec;
ghost use Rattle.cf_enter.specs.Steps.{known_by};

use crate::declarator::{has_params, is_bare, plain_name};
use cf_base::{Bytes, Memory};
use cf_syntax::{DeclTree, NameKind, TypeNames};
use cf_unit::Given;

/// Whether this is the class's own name.
fn is_own(own: &Option<Bytes>, name: &[u8]) -> bool
    ensures { result ≡ spec.is_own own.now name.now }
{
    match own {
        Some(bytes) => bytes.as_slice() == name,
        None => false,
    }
}

/// Whether a constructor is declared.
fn is_constructor(given: &Given, own: &Option<Bytes>, tree: &DeclTree, name: &[u8]) -> bool
    ensures { result ≡ spec.is_constructor (known_by no_names own.now) given.now (shape tree.now) name.now }
{
    given.kind.is_none() && (has_params(tree) && is_own(own, name))
}

/// What a declared name stands for.
fn declared_kind(given: &Given, tree: &DeclTree) -> NameKind
    ensures { result ≡ spec.declared_kind given.now (shape tree.now) }
{
    if !given.is_typedef {
        return NameKind::Value;
    }
    if !is_bare(tree) {
        return NameKind::Plain;
    }
    match given.kind {
        Some(kind) => kind,
        None => NameKind::Plain,
    }
}

/// Enters what a declarator declares, in a declaration that stands in the last of so many open scopes, in a class of this name or in none.
pub fn enter(
    names: &mut TypeNames,
    home: usize,
    given: &Given,
    own: &Option<Bytes>,
    tree: &DeclTree,
) -> Result<(), Memory>
    ensures { OnOk result (names.new ≡ spec.entered_names home given.now (known_by names.old own.now) (shape tree.now) (plain_name (shape tree.now).name)) }
{
    let Some(name) = plain_name(tree) else {
        return Ok(());
    };
    if is_constructor(given, own, tree, name) {
        return Ok(());
    }
    let count = if given.is_friend {
        names.outside_classes()
    } else {
        home
    };
    names.declare_in(count, name, declared_kind(given, tree))
}
