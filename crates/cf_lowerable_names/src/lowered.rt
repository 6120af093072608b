//! Which names of functions and objects are lowered.

ghost use Rattle.std.specs.Prelude.{◌≡◌, [], IfOk};
ghost use Rattle.cc_whole.specs.Plain.{items_of};
ghost use Rattle.cf_lower.specs.Functions.{lowered_file};
ghost use Rattle.cf_lower_program.specs.Names.{names_lowered};
ghost use Rattle.cf_lower_types.specs.Ordered.{IsOrdered};
ghost use Rattle.cf_plain.specs.View.{file_of};

use crate::linked::parts_fit;
use cc_whole::CUnit;
use cf_base::Memory;
use cf_lower_types::Tables;
use cf_lower_unit::lower;
use cf_plain::PlainUnit;
use std::alloc::Global;

/// Whether the names of a file's functions and objects, and of what it names, are lowered: none is the C's own, each is declared with one type of the
/// small C, and with that which it has of its own, and all have a text. Linear in the sizes of the file, of its C, and of the parameters of what actions
/// name.
///
/// The file defines no class, and each of its types names types before it alone, as `lower` asks.
pub fn names_are_lowered_in(alloc: Global, unit: &PlainUnit, made: &CUnit) -> Result<bool, Memory>
    requires ordered { IsOrdered unit.now.types }
    requires no_classes { unit.now.classes.defined ≡ [] }
    requires lowered { items_of made.now.items ≡ lowered_file (file_of unit.now) }
    ensures { IfOk result (λ is. is ≡ names_lowered (file_of unit.now)) }
{
    let functions = unit.functions();
    let statics = unit.statics();
    let tables = Tables::new(unit.types(), unit.classes());
    let items = made.items.as_slice();
    let fit = parts_fit(alloc, &tables, items, functions, statics)?;
    Ok(fit)
}

/// Whether the names of a file's functions and objects, and of what it names, are lowered. The file is lowered for it; where that is done anyway,
/// `names_are_lowered_in` asks the same with what was made.
///
/// The file defines no class, and each of its types names types before it alone, as `lower` asks. What `lower` answers as if memory had ended is
/// answered so here.
pub fn names_are_lowered(alloc: Global, unit: &PlainUnit) -> Result<bool, Memory>
    requires ordered { IsOrdered unit.now.types }
    requires no_classes { unit.now.classes.defined ≡ [] }
    ensures { IfOk result (λ is. is ≡ names_lowered (file_of unit.now)) }
{
    let made = lower(alloc, unit)?;
    let is = names_are_lowered_in(alloc, unit, &made)?;
    Ok(is)
}
