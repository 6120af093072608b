//! Whether the function is there in which a static object stands.

ghost use Rattle.std.specs.Prelude.{◌≡◌, ◌||◌, List, ℕ, IfOk, OnOk};
ghost use Rattle.cf_core.specs.FromTypes.{Tables as TablesOf};
ghost use Rattle.cf_name_list.specs.Names.{is_in};
ghost use Rattle.cf_plain.specs.View.{static_of};
ghost use Rattle.cf_lowerable_known.specs.Owned as owned;

use cf_base::Memory;
use cf_name_list::Names;
use cf_plain::{PlainFn, PlainStatic};
use std::alloc::Global;

/// Puts the names of functions among others.
fn add_functions<'a>(names: &mut Names<'a>, functions: &'a [PlainFn]) -> Result<(), Memory>
    ensures { (q : List ℕ) → OnOk result (is_in names.new q ≡ (is_in (owned.names_of functions.now) q || is_in names.old q)) }
{
    for function in functions {
        names.add(function.name.as_slice())?;
    }
    Ok(())
}

/// The names of functions.
pub(crate) fn names_of<'a>(alloc: Global, functions: &'a [PlainFn]) -> Result<Names<'a>, Memory>
    ensures { (q : List ℕ) → IfOk result (λ names. is_in names q ≡ is_in (owned.names_of functions.now) q) }
{
    let mut names = Names::new(alloc);
    add_functions(&mut names, functions)?;
    Ok(names)
}

/// Whether the function in which a static object stands has one of these names; what is shared stands in one.
pub(crate) fn is_owned(names: &Names<'_>, object: &PlainStatic) -> bool
    ensures { (tables : TablesOf) → result ≡ owned.owner_in names.now (static_of tables object.now) }
{
    match &object.owner {
        None => !object.is_shared,
        Some(name) => names.has(name.as_slice()),
    }
}

/// Where the literals of a static object's initialiser are numbered.
pub(crate) fn owner_of(object: &PlainStatic) -> &[u8]
    ensures { result.now ≡ owned.owner_or object.now.owner }
{
    match &object.owner {
        None => b"__sti".as_slice(),
        Some(name) => name.as_slice(),
    }
}
