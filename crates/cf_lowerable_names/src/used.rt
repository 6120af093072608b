//! Whether a file's C uses what the file names and other files define.

ghost use Rattle.std.specs.Prelude.{◌≡◌, [], IfOk};
ghost use Rattle.cc_whole.specs.Plain.{items_of};
ghost use Rattle.cf_lower.specs.Functions.{lowered_file};
ghost use Rattle.cf_lower_program.specs.Names.{names_used};
ghost use Rattle.cf_lower_types.specs.Ordered.{IsOrdered};
ghost use Rattle.cf_plain.specs.View.{file_of};

use crate::known::known;
use crate::named::{functions_there, statics_there};
use cc_whole::CUnit;
use cf_base::Memory;
use cf_lower_types::Tables;
use cf_lower_unit::lower;
use cf_plain::PlainUnit;
use std::alloc::Global;

/// Whether the C that a file was lowered to uses what the file names and other files define (3.3). Linear in the sizes of both.
///
/// The file defines no class, and each of its types names types before it alone, as `lower` asks.
pub fn names_are_used_in(alloc: Global, unit: &PlainUnit, made: &CUnit) -> Result<bool, Memory>
    requires ordered { IsOrdered unit.now.types }
    requires no_classes { unit.now.classes.defined ≡ [] }
    requires lowered { items_of made.now.items ≡ lowered_file (file_of unit.now) }
    ensures { IfOk result (λ used. used ≡ names_used (file_of unit.now)) }
{
    let functions = unit.functions();
    let statics = unit.statics();
    let tables = Tables::new(unit.types(), unit.classes());
    let names = known(alloc, functions, &made.items)?;
    if !functions_there(alloc, &tables, &names, functions)? {
        return Ok(false);
    }
    let there = statics_there(alloc, &tables, &names, statics)?;
    Ok(there)
}

/// Whether the C of a file uses what the file names and other files define (3.3): a name of which no value is kept is used by no C. The file is lowered
/// for it; where that is done anyway, `names_are_used_in` asks the same of what was made.
///
/// The file defines no class, and each of its types names types before it alone, as `lower` asks. What `lower` answers as if memory had ended is
/// answered so here.
pub fn names_are_used(alloc: Global, unit: &PlainUnit) -> Result<bool, Memory>
    requires ordered { IsOrdered unit.now.types }
    requires no_classes { unit.now.classes.defined ≡ [] }
    ensures { IfOk result (λ used. used ≡ names_used (file_of unit.now)) }
{
    let made = lower(alloc, unit)?;
    let used = names_are_used_in(alloc, unit, &made)?;
    Ok(used)
}
