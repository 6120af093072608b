//! Whole units.

ghost use Rattle.std.specs.Prelude.{◌≡◌, [], map, IfOk};
ghost use Rattle.std.specs.List.{list_all};
ghost use Rattle.cf_lower_kept.specs.Ready as ready;
ghost use Rattle.cf_lower_types.specs.Ordered.{IsOrdered};
ghost use Rattle.cf_plain.specs.View as view;

use crate::functions::is_ready;
use cf_base::Memory;
use cf_lower_types::Tables;
use cf_plain::{PlainFn, PlainUnit};
use std::alloc::Global;

/// Whether all functions of a file are ready.
#[tactic(auto, using(crate::proofs::UnitLaws::function_more, crate::proofs::UnitLaws::function_fails, crate::proofs::UnitLaws::functions_ended))]
fn are_ready(alloc: Global, tables: &Tables<'_>, all: &[PlainFn]) -> Result<bool, Memory>
    ensures { IfOk result (λ good. good ≡ list_all ready.function_ready (map (view.function_of tables.now) all.now)) }
{
    for f in all {
        if !is_ready(alloc, tables, f)? {
            return Ok(false);
        }
    }
    Ok(true)
}

/// Whether the statements of all functions of a unit are ready to be lowered, by what registers hold before them. The file defines no class, and each of
/// its types names types before it alone.
///
/// It goes through the statements once. What no valid file has, as a local that is declared with a type that is not its own, or two classes that are
/// compared, is answered as if memory had ended.
pub fn functions_are_ready(alloc: Global, unit: &PlainUnit) -> Result<bool, Memory>
    requires ordered { IsOrdered unit.now.types }
    requires no_classes { unit.now.classes.defined ≡ [] }
    ensures { IfOk result (λ is. is ≡ ready.functions_ready (view.file_of unit.now)) }
{
    let functions = unit.functions();
    let tables = Tables::new(unit.types(), unit.classes());
    let good = are_ready(alloc, &tables, functions)?;
    Ok(good)
}
