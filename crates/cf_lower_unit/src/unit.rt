//! The whole of a file.

ghost use Rattle.std.specs.Prelude.{◌≡◌, ◌++◌, [], IfOk};
ghost use Rattle.cc_whole.specs.Plain.{items_of};
ghost use Rattle.cf_lower.specs.Functions as spec;
ghost use Rattle.cf_lower_types.specs.Ordered.{IsOrdered};
ghost use Rattle.cf_plain.specs.View.{file_of};
ghost use Rattle.cf_lower_unit.specs.Pieces as pieces;

use crate::elsewhere::declare_others;
use crate::functions::{declare_functions, define_functions};
use crate::items::joined;
use crate::library::declare_library;
use crate::starts::define_starts;
use crate::variables::own_variables;
use cc_whole::{CItem, CUnit};
use cf_base::{Items, Memory};
use cf_lower_types::Tables;
use cf_plain::{PlainFn, PlainStatic, PlainUnit};
use std::alloc::Global;

/// Declares the library's functions and the file's own.
fn heads(alloc: Global, tables: &Tables<'_>, functions: &[PlainFn]) -> Result<Items<CItem>, Memory>
    ensures { IfOk result (λ made. items_of made ≡ spec.library ++ pieces.own_heads tables.now functions.now) }
{
    let mut made = Items::new(alloc);
    declare_library(alloc, &mut made)?;
    declare_functions(alloc, tables, functions, &mut made)?;
    Ok(made)
}

/// What a unit has before its functions: the declarations and the variables.
fn front(
    alloc: Global,
    tables: &Tables<'_>,
    functions: &[PlainFn],
    statics: &[PlainStatic],
) -> Result<Items<CItem>, Memory>
    ensures { IfOk result (λ made. items_of made ≡ pieces.front_of (pieces.file_with tables.now functions.now statics.now)) }
{
    let heads = heads(alloc, tables, functions)?;
    let variables = own_variables(alloc, tables, functions, statics)?;
    let others = declare_others(alloc, tables, functions, statics, &heads, &variables)?;
    let declared = joined(heads, others)?;
    let made = joined(declared, variables)?;
    Ok(made)
}

/// The items of a file's functions and static objects.
fn file_items(
    alloc: Global,
    tables: &Tables<'_>,
    functions: &[PlainFn],
    statics: &[PlainStatic],
) -> Result<Items<CItem>, Memory>
    ensures { IfOk result (λ made. items_of made ≡ spec.lowered_file (pieces.file_with tables.now functions.now statics.now)) }
{
    let mut made = front(alloc, tables, functions, statics)?;
    define_functions(alloc, tables, functions, &mut made)?;
    define_starts(alloc, tables, statics, &mut made)?;
    Ok(made)
}

/// The unit of the small C of a file: its items are those that lowering's definition gives. The file defines no class, and each of its types names
/// types before it alone. Sequencing hands a core's tables on, so the caller has the first of `sequence`, which refuses a file with a class, and the
/// second of the core, which is valid.
///
/// What no valid file has, as an object beyond 31 bits, is answered as if memory had ended.
pub fn lower(alloc: Global, unit: &PlainUnit) -> Result<CUnit, Memory>
    requires ordered { IsOrdered unit.now.types }
    requires no_classes { unit.now.classes.defined ≡ [] }
    ensures version { IfOk result (λ made. made.version ≡ 1) }
    ensures items { IfOk result (λ made. items_of made.items ≡ spec.lowered_file (file_of unit.now)) }
{
    let functions = unit.functions();
    let statics = unit.statics();
    let tables = Tables::new(unit.types(), unit.classes());
    let items = file_items(alloc, &tables, functions, statics)?;
    Ok(CUnit { version: 1, items })
}
