//! Initialisers, enumerators, specifiers and declarations (7, 8.4).
//!
//! Each walk gives the byte place of the first form of its part that is not built; none where all are.

ghost use Rattle.std.specs.Prelude.{◌≡◌, map};
ghost use Rattle.cf_elab.specs.Built as built;
ghost use Rattle.cf_elab_built.specs.Built.Parts as parts;

use crate::built::expressions::{declarator, expression, expressions};
use crate::built::names::specifier as plain;
use crate::built::place::first;
use cf_unit::{Declaration, Enumerator, Init, InitDeclarator, Initialiser, Specifier};

/// A value in an initialiser (8.4).
#[cycle(inits)]
fn init(i: &Init) -> Option<u32>
    ensures { result ≡ built.init i.now }
{
    match i {
        Init::Value(_, e) => expression(e.get()),
        Init::List(_, all) => inits(all.as_slice()),
    }
}

/// Values in braces in order (8.4.1).
#[cycle(inits)]
fn inits(all: &[Init]) -> Option<u32>
    ensures { result ≡ built.first_of (map built.init all.now) }
{
    let mut found = None;
    for i in all {
        found = first(found, init(i));
    }
    found
}

/// What stands behind a declarator that is initialised, if it is (8.4).
fn initialiser(i: &Option<Initialiser>) -> Option<u32>
    ensures { result ≡ built.of_initialiser i.now }
{
    match i {
        None => None,
        Some(Initialiser::Equals(_, i)) => init(i.get()),
        Some(Initialiser::Arguments(_, all)) => expressions(all.as_slice()),
    }
}

/// A declarator with its initialiser (8).
fn initialised(d: &InitDeclarator) -> Option<u32>
    ensures { result ≡ built.of_declarator d.now }
{
    first(declarator(d.declarator.get()), initialiser(&d.initialiser))
}

/// Declarators with their initialisers in order.
fn all_initialised(all: &[InitDeclarator]) -> Option<u32>
    ensures { result ≡ built.first_of (map built.of_declarator all.now) }
{
    let mut found = None;
    for d in all {
        found = first(found, initialised(d));
    }
    found
}

/// An enumerator with its value, if it has one (7.2).
fn enumerator(e: &Enumerator) -> Option<u32>
    ensures { result ≡ built.of_enumerator e.now }
{
    match &e.value {
        None => None,
        Some((_, value)) => expression(value.get()),
    }
}

/// Enumerators in order.
fn enumerators(all: &[Enumerator]) -> Option<u32>
    ensures { result ≡ built.first_of (map built.of_enumerator all.now) }
{
    let mut found = None;
    for e in all {
        found = first(found, enumerator(e));
    }
    found
}

/// A specifier of a declaration (7.1): a class that is defined is not built, and its members are not looked at.
fn specifier(s: &Specifier) -> Option<u32>
    ensures { result ≡ parts.specifier s.now }
{
    match s {
        Specifier::Plain(s) => plain(s),
        Specifier::Class(class) => Some(class.get().at),
        Specifier::Enumeration(definition) => enumerators(definition.enumerators.as_slice()),
    }
}

/// Specifiers of a declaration in order.
pub fn specifiers(all: &[Specifier]) -> Option<u32>
    ensures { result ≡ built.first_of (map parts.specifier all.now) }
{
    let mut found = None;
    for s in all {
        found = first(found, specifier(s));
    }
    found
}

/// A declaration (7).
pub fn declaration(d: &Declaration) -> Option<u32>
    ensures { result ≡ parts.declaration d.now }
{
    first(
        specifiers(d.specifiers.as_slice()),
        all_initialised(d.declarators.as_slice()),
    )
}
