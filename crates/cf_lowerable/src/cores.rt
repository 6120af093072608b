//! The tests of a core.

ghost use Rattle.std.specs.Prelude.{◌≡◌, [], true, IfOk};
ghost use Rattle.cf_core.specs.FromUnit.{file_of};
ghost use Rattle.cf_lowerable.specs.Tested as spec;

use cf_base::Memory;
use cf_core::CoreUnit;
use cf_lowerable_core::{literals_differ, looks, looks_are_tests};
use std::alloc::Global;

/// Whether a core passes both tests.
fn passes(alloc: Global, core: &CoreUnit) -> Result<bool, Memory>
    requires { core.now.classes.defined ≡ [] }
    ensures { IfOk result (λ is. is ≡ spec.core_passes (file_of core.now)) }
{
    let fits = looks(alloc, core)?;
    if !fits {
        return Ok(false);
    }
    let differ = literals_differ(alloc, core)?;
    Ok(differ)
}

/// Whether a core passes the tests that stand for laws: its types, operators, literals, labels and sizes are those that lowering takes, nothing in it is
/// shared and local at once, and each literal has a name of its own. It takes time and memory by the number of nodes. The file defines no class.
pub fn core_passes(alloc: Global, core: &CoreUnit) -> Result<bool, Memory>
    requires { core.now.classes.defined ≡ [] }
    ensures passed { IfOk result (λ is. is ≡ true → spec.CoreTested (file_of core.now)) }
    ensures passes { spec.CoreTested (file_of core.now) → IfOk result (λ is. is ≡ true) }
{
    looks_are_tests();
    let is = passes(alloc, core)?;
    Ok(is)
}
