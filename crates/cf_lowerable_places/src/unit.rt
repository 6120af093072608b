//! Whole units.

ghost use Rattle.std.specs.Prelude.{◌≡◌, [], map, IfOk};
ghost use Rattle.std.specs.List.{list_all};
ghost use Rattle.cf_lower_place.specs.Named as named;
ghost use Rattle.cf_lower_types.specs.Bare.{classes_of};
ghost use Rattle.cf_lower_types.specs.Ordered.{IsOrdered};
ghost use Rattle.cf_plain.specs.View as view;

use crate::functions::is_in_place;
use cf_base::Memory;
use cf_lower_types::Tables;
use cf_plain::{PlainFn, PlainUnit};
use std::alloc::Global;

/// Whether all functions of a file are in place.
#[tactic(auto, using(crate::proofs::UnitLaws::function_more, crate::proofs::UnitLaws::function_fails, crate::proofs::UnitLaws::functions_ended))]
fn are_in_place(alloc: Global, tables: &Tables<'_>, all: &[PlainFn]) -> Result<bool, Memory>
    ensures { IfOk result (λ good. good ≡ list_all (named.function_in_place (classes_of tables.now)) (map (view.function_of tables.now) all.now)) }
{
    for f in all {
        if !is_in_place(alloc, tables, f)? {
            return Ok(false);
        }
    }
    Ok(true)
}

/// Whether the statements of all functions of a unit are in place, as lowering asks of them. The file defines no class, and each of its types names
/// types before it alone.
///
/// It goes through the statements once, and at each loop and switch through those inside it for the registers that they set. What the registers hold is
/// copied at each branch, loop, switch and label, and the labels of a switch and the arguments of a call are looked for in lists. What no valid file has, as
/// an object beyond 64 bits, or two classes that are compared, is answered as if memory had ended.
pub fn functions_are_in_place(alloc: Global, unit: &PlainUnit) -> Result<bool, Memory>
    requires ordered { IsOrdered unit.now.types }
    requires no_classes { unit.now.classes.defined ≡ [] }
    ensures { IfOk result (λ good. good ≡ named.functions_in_place (view.file_of unit.now)) }
{
    let functions = unit.functions();
    let tables = Tables::new(unit.types(), unit.classes());
    let good = are_in_place(alloc, &tables, functions)?;
    Ok(good)
}
