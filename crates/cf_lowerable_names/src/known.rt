//! The names that are a file's own, or that its C uses.

ghost use Rattle.std.specs.Prelude.{◌≡◌, ◌++◌, ◌||◌, List, ℕ, IfOk, OnOk};
ghost use Rattle.std.specs.List.{flat_map};
ghost use Rattle.cc_whole.specs.Known.{is_in};
ghost use Rattle.cc_whole.specs.Plain.{item_of, items_of};
ghost use Rattle.cc_whole_uses.specs.Told.{told};
ghost use Rattle.cf_lowerable_names.specs.Given as spec;

use cc_whole::CItem;
use cc_whole_uses::uses_of_item;
use cf_base::{Items, Memory};
use cf_name_list::Names;
use cf_plain::PlainFn;
use std::alloc::Global;

/// Puts names among others.
fn add_all<'a>(names: &mut Names<'a>, more: &[&'a [u8]]) -> Result<(), Memory>
    ensures { (q : List ℕ) → OnOk result (is_in names.new q ≡ (is_in (told more.now) q || is_in names.old q)) }
{
    for name in more {
        names.add(*name)?;
    }
    Ok(())
}

/// Puts the name of the variable that an item defines in front of others, if it defines one.
fn add_variable<'a>(names: &mut Names<'a>, item: &'a CItem) -> Result<(), Memory>
    ensures { OnOk result (names.new ≡ spec.variable_names (item_of item.now) ++ names.old) }
{
    match item {
        CItem::Variable(variable) => {
            names.add(variable.name.as_slice())?;
            Ok(())
        }
        CItem::Prototype(_) | CItem::Extern(_, _) | CItem::Function(_) => Ok(()),
    }
}

/// Puts the variable that an item defines, and what it uses, among others.
fn add_item<'a>(alloc: Global, names: &mut Names<'a>, item: &'a CItem) -> Result<(), Memory>
    ensures { (q : List ℕ) → OnOk result (is_in names.new q ≡ (is_in (spec.given_by (item_of item.now)) q || is_in names.old q)) }
{
    let uses = uses_of_item(alloc, item)?;
    let used = uses.as_slice();
    add_all(names, used)?;
    add_variable(names, item)?;
    Ok(())
}

/// The same of all items.
fn add_items<'a>(
    alloc: Global,
    names: &mut Names<'a>,
    items: &'a Items<CItem>,
) -> Result<(), Memory>
    ensures { (q : List ℕ) → OnOk result (is_in names.new q ≡ (is_in (flat_map spec.given_by (items_of items.now)) q || is_in names.old q)) }
{
    for item in items.as_slice() {
        add_item(alloc, names, item)?;
    }
    Ok(())
}

/// Puts the names of functions among others.
fn add_functions<'a>(names: &mut Names<'a>, functions: &'a [PlainFn]) -> Result<(), Memory>
    ensures { (q : List ℕ) → OnOk result (is_in names.new q ≡ (is_in (spec.names_of functions.now) q || is_in names.old q)) }
{
    for function in functions {
        names.add(function.name.as_slice())?;
    }
    Ok(())
}

/// Puts the names of the library's functions among others.
fn add_library(names: &mut Names<'_>) -> Result<(), Memory>
    ensures { (q : List ℕ) → OnOk result (is_in names.new q ≡ (is_in spec.library_names q || is_in names.old q)) }
{
    names.add(b"exit")?;
    names.add(b"getchar")?;
    names.add(b"putchar")?;
    Ok(())
}

/// The names of the library's functions, of these functions and of the variables that these items define, and what the items use.
pub(crate) fn known<'a>(
    alloc: Global,
    functions: &'a [PlainFn],
    items: &'a Items<CItem>,
) -> Result<Names<'a>, Memory>
    ensures { (q : List ℕ) → IfOk result (λ names. is_in names q ≡ spec.is_known functions.now (items_of items.now) q) }
{
    let mut names = Names::new(alloc);
    add_items(alloc, &mut names, items)?;
    add_functions(&mut names, functions)?;
    add_library(&mut names)?;
    Ok(names)
}
