ghost use Rattle.std.specs.Prelude.{◌≡◌, ◌++◌, IfOk, OnOk};
ghost use Rattle.std.specs.List.{flat_map};
ghost use Rattle.std.specs.Option.{option_copied};
ghost use Rattle.cf_unit.specs.declared.specifier.Specifier.{out-Specifier};
ghost use Rattle.cf_elab.specs.Scan as scan;

use crate::scan::declarator::{declared_name, is_function};
use crate::scan::keys::key;
use cf_base::{Items, Memory, Name};
use cf_syntax::{Name as WrittenName, Storage, TypeSpecifier};
use cf_unit::{Declaration, InitDeclarator, Item, Specifier, Unit};
use std::alloc::Global;

/// The names that the file's own declarations define, in order: functions with a body, and objects that are not only declared (3.1).
/// A linkage specification defines none.
pub fn defined_names(alloc: Global, unit: &Unit) -> Result<Items<Name>, Memory>
    ensures { IfOk result (λ names. names ≡ scan.defined_names unit.now) }
{
    let mut names = Items::new(alloc);
    add_items(alloc, &mut names, unit.items.as_slice())?;
    Ok(names)
}

fn add_items(alloc: Global, names: &mut Items<Name>, items: &[Item]) -> Result<(), Memory>
    ensures { OnOk result (names.new ≡ names.old ++ flat_map scan.item_names items.now) }
{
    for item in items {
        add_item(alloc, names, item)?;
    }
    Ok(())
}

fn add_item(alloc: Global, names: &mut Items<Name>, item: &Item) -> Result<(), Memory>
    ensures { OnOk result (names.new ≡ names.old ++ scan.item_names item.now) }
{
    match item {
        Item::Function(function) => {
            add_key(alloc, names, declared_name(function.get().declarator.get()))
        }
        Item::Declaration(declaration) => add_declaration(alloc, names, declaration.get()),
        Item::Linkage(_) => Ok(()),
    }
}

fn add_key(alloc: Global, names: &mut Items<Name>, name: Option<&WrittenName>) -> Result<(), Memory>
    ensures { OnOk result (names.new ≡ names.old ++ scan.keys (option_copied name.entry)) }
{
    match name {
        Some(name) => names.push(key(alloc, &name.last)?),
        None => Ok(()),
    }
}

fn add_declaration(
    alloc: Global,
    names: &mut Items<Name>,
    declaration: &Declaration,
) -> Result<(), Memory>
    ensures { OnOk result (names.new ≡ names.old ++ flat_map (scan.names_defined (scan.only_declares declaration.now.specifiers)) declaration.now.declarators) }
{
    let only = only_declares(declaration.specifiers.as_slice());
    add_defined(alloc, names, only, declaration.declarators.as_slice())
}

fn add_defined(
    alloc: Global,
    names: &mut Items<Name>,
    only: bool,
    declarators: &[InitDeclarator],
) -> Result<(), Memory>
    ensures { OnOk result (names.new ≡ names.old ++ flat_map (scan.names_defined only) declarators.now) }
{
    for declarator in declarators {
        add_object(alloc, names, only, declarator)?;
    }
    Ok(())
}

/// Adds what a declarator defines: an object, where its specifiers don't only declare or it is initialised.
fn add_object(
    alloc: Global,
    names: &mut Items<Name>,
    only: bool,
    declarator: &InitDeclarator,
) -> Result<(), Memory>
    ensures { OnOk result (names.new ≡ names.old ++ scan.names_defined only declarator.now) }
{
    let tree = declarator.declarator.get();
    if !is_function(tree) && (!only || declarator.initialiser.is_some()) {
        add_key(alloc, names, declared_name(tree))?;
    }
    Ok(())
}

/// Whether `extern` or `typedef` stands among the specifiers, which define no object.
fn only_declares(specifiers: &[Specifier]) -> bool
    ensures { result ≡ scan.only_declares specifiers.now }
{
    specifiers.iter().any(|specifier| only_names(specifier))
}

#[tactic(auto, using(crate::proofs::ScanLaws::Words::word_laws))]
fn only_names(specifier: &Specifier) -> bool
    ensures { result ≡ scan.specifier_word (out-Specifier specifier.now) }
{
    match specifier {
        Specifier::Plain(TypeSpecifier::Storage(_, word)) => {
            matches!(word, Storage::Extern | Storage::Typedef)
        }
        Specifier::Plain(_) | Specifier::Class(_) | Specifier::Enumeration(_) => false,
    }
}
