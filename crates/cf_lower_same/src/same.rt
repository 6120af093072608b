//! Whether two types of a file are the same.

ghost use Rattle.std.specs.Prelude.{◌≡◌, IfOk};
ghost use Rattle.cf_core.specs.Types.{type_eq};
ghost use Rattle.cf_core.specs.FromTypes.{type_of};
ghost use Rattle.cf_lower_types.specs.Bare.{bare};

use crate::alike::{Alike, compared};
use crate::enumerations::same_enumerations;
use cf_base::Memory;
use cf_lower_types::Tables;
use cf_types::TyId;

/// Whether two types are the same, const being left out at all levels.
#[tactic(auto, using(crate::proofs::Types::same_number))]
pub fn same_bare(tables: &Tables<'_>, id: TyId, other: TyId) -> Result<bool, Memory>
    ensures { IfOk result (λ same. same ≡ type_eq (bare tables.now id) (bare tables.now other)) }
{
    if id == other {
        return Ok(true);
    }
    match compared(tables, id, other) {
        Alike::Known(same) => Ok(same),
        Alike::Enumerations(e, f) => {
            let same = same_enumerations(tables, e, f)?;
            Ok(same)
        }
        Alike::Types(part, with) => {
            let same = same_bare(tables, part, with)?;
            Ok(same)
        }
        Alike::Functions(f, g) => {
            let first = tables.fun(f);
            let second = tables.fun(g);
            if first.params.len() != second.params.len() {
                return Ok(false);
            }
            for i in 0..first.params.len() {
                if !same_bare(
                    tables,
                    first.params.as_slice()[i],
                    second.params.as_slice()[i],
                )? {
                    return Ok(false);
                }
            }
            let same = same_bare(tables, first.result, second.result)?;
            Ok(same)
        }
        Alike::Untold => Err(Memory),
    }
}

/// Whether two types are the same with their const. Two of different numbers are not compared yet, which is answered as if memory had ended.
#[tactic(auto, using(crate::proofs::Types::itself))]
pub fn same_exactly(tables: &Tables<'_>, id: TyId, other: TyId) -> Result<bool, Memory>
    ensures { IfOk result (λ same. same ≡ type_eq (type_of tables.now id) (type_of tables.now other)) }
{
    let _types = tables.types();
    if id == other { Ok(true) } else { Err(Memory) }
}
