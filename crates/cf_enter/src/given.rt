//! Specifiers of a declaration, as far as they were read (7.1).

ghost use Rattle.std.specs.Prelude.{◌≡◌, None, OnOk};
ghost use Rattle.cf_unit.specs.Enters.{given_one};
ghost use Rattle.cf_enter.specs.Names.{both};
ghost use Rattle.cf_enter.specs.Steps.{befriends, given_by, known_by, type_of, typedefs};

use crate::classes::keyed;
use crate::paths::{path_kind, some_type};
use cf_base::Memory;
use cf_syntax::{NameKind, Storage, TypeNames, TypeSpecifier};
use cf_unit::{Given, Specifier};

/// What a specifier's type stands for, if it names one. A class that is not found is entered.
fn type_named(
    names: &mut TypeNames,
    is_friend: bool,
    specifier: &TypeSpecifier,
) -> Result<Option<NameKind>, Memory>
    ensures { both result names.new (type_of is_friend names.old specifier.now).0 (type_of is_friend names.old specifier.now).1 }
{
    match specifier {
        TypeSpecifier::Storage(_, _) => Ok(None),
        TypeSpecifier::Const(_) => Ok(None),
        TypeSpecifier::Basic(_, _) => Ok(Some(NameKind::Plain)),
        TypeSpecifier::Elaborated(_, key, path) => Ok(Some(keyed(names, *key, is_friend, path)?)),
        TypeSpecifier::Named(path) => Ok(Some(some_type(path_kind(names, path)))),
    }
}

/// Whether the specifier is `typedef`.
fn is_typedef(specifier: &TypeSpecifier) -> bool
    ensures { result ≡ typedefs specifier.now }
{
    match specifier {
        TypeSpecifier::Storage(_, Storage::Typedef) => true,
        _ => false,
    }
}

/// Whether the specifier is `friend`.
fn is_friend(specifier: &TypeSpecifier) -> bool
    ensures { result ≡ befriends specifier.now }
{
    match specifier {
        TypeSpecifier::Storage(_, Storage::Friend) => true,
        _ => false,
    }
}

/// Adds a specifier whose type stands for this, if it names one.
fn add(given: &mut Given, specifier: TypeSpecifier, kind: Option<NameKind>) -> Result<(), Memory>
    ensures { OnOk result (given.new ≡ given_by given.old specifier kind) }
{
    if is_typedef(&specifier) {
        given.is_typedef = true;
    }
    if is_friend(&specifier) {
        given.is_friend = true;
    }
    if kind.is_some() {
        given.kind = kind;
    }
    given.list.push(Specifier::Plain(specifier))
}

/// Adds a specifier that defines nothing, and enters a class that it names where that is not found.
#[tactic(auto, using(crate::proofs::Giving::given_is, crate::proofs::Giving::names_are))]
pub fn give(
    names: &mut TypeNames,
    given: &mut Given,
    specifier: TypeSpecifier,
) -> Result<(), Memory>
    ensures given { OnOk result (given.new ≡ (given_one given.old (known_by names.old None) specifier).0) }
    ensures names { OnOk result (names.new ≡ (given_one given.old (known_by names.old None) specifier).1.names) }
{
    let kind = type_named(names, given.is_friend, &specifier)?;
    add(given, specifier, kind)
}
