//! Initialisers, enumerators, specifiers and declarations (7, 8.4).
//!
//! Each walk gives whether the constants of its part are of their types.

ghost use Rattle.std.specs.Prelude.{◌≡◌, map};
ghost use Rattle.cf_elab_valid.specs.Constants.{all_of};
ghost use Rattle.cf_elab_valid_files.specs.Bodies.Trees as trees;

use crate::expressions::{declarator, expression, expressions};
use cf_unit::{Declaration, Enumerator, Init, InitDeclarator, Initialiser, Specifier};

/// A value in an initialiser (8.4).
#[cycle(inits)]
fn init(i: &Init) -> bool
    ensures { result ≡ trees.init_fits i.now }
{
    match i {
        Init::Value(_, e) => expression(e.get()),
        Init::List(_, all) => inits(all.as_slice()),
    }
}

/// Values in braces in order (8.4.1).
#[cycle(inits)]
fn inits(all: &[Init]) -> bool
    ensures { result ≡ all_of (map trees.init_fits all.now) }
{
    for i in all {
        if !init(i) {
            return false;
        }
    }
    true
}

/// What stands behind a declarator that is initialised, if it is (8.4).
fn initialiser(i: &Option<Initialiser>) -> bool
    ensures { result ≡ trees.initialiser_fits i.now }
{
    match i {
        None => true,
        Some(Initialiser::Equals(_, i)) => init(i.get()),
        Some(Initialiser::Arguments(_, all)) => expressions(all.as_slice()),
    }
}

/// A declarator with its initialiser (8).
fn initialised(d: &InitDeclarator) -> bool
    ensures { result ≡ trees.init_declarator_fits d.now }
{
    declarator(d.declarator.get()) && initialiser(&d.initialiser)
}

/// Declarators with their initialisers in order.
fn all_initialised(all: &[InitDeclarator]) -> bool
    ensures { result ≡ all_of (map trees.init_declarator_fits all.now) }
{
    for d in all {
        if !initialised(d) {
            return false;
        }
    }
    true
}

/// An enumerator with its value, if it has one (7.2).
fn enumerator(e: &Enumerator) -> bool
    ensures { result ≡ trees.enumerator_fits e.now }
{
    match &e.value {
        None => true,
        Some((_, value)) => expression(value.get()),
    }
}

/// Enumerators in order.
fn enumerators(all: &[Enumerator]) -> bool
    ensures { result ≡ all_of (map trees.enumerator_fits all.now) }
{
    for e in all {
        if !enumerator(e) {
            return false;
        }
    }
    true
}

/// A specifier of a declaration (7.1). A class that is defined is not looked at, since it is not built.
fn specifier(s: &Specifier) -> bool
    ensures { result ≡ trees.specifier_fits s.now }
{
    match s {
        Specifier::Plain(_) | Specifier::Class(_) => true,
        Specifier::Enumeration(definition) => enumerators(definition.enumerators.as_slice()),
    }
}

/// Specifiers of a declaration in order.
pub fn specifiers(all: &[Specifier]) -> bool
    ensures { result ≡ all_of (map trees.specifier_fits all.now) }
{
    for s in all {
        if !specifier(s) {
            return false;
        }
    }
    true
}

/// A declaration (7).
pub fn declaration(d: &Declaration) -> bool
    ensures { result ≡ trees.declaration_fits d.now }
{
    specifiers(d.specifiers.as_slice()) && all_initialised(d.declarators.as_slice())
}
