//! The tests of a core and of its plain file.

ghost use Rattle.std.specs.Prelude.{◌≡◌, [], true, IfOk};
ghost use Rattle.cf_core.specs.FromUnit.{Unit as CoreUnit, IsValid, file_of};
ghost use Rattle.cf_lower_program.specs.Lowerable.{Lowerable};
ghost use Rattle.cf_lower_types.specs.Ordered.{IsOrdered};
ghost use Rattle.cf_lowerable.specs.Tested.{CoreTested};
ghost use Rattle.cf_plain.specs.View as plain;
ghost use Rattle.cf_plain_kept.specs.Kept.{functions_kept};
ghost use Rattle.cf_one_file.specs.Means.{IsSound};
ghost use Rattle.cf_sequence_unit.specs.Sequences.{Sequences};
ghost use Rattle.cf_compile.specs.Tests.{CoreFits};

use cf_base::Memory;
use cf_core::CoreUnit;
use cf_lowerable::{core_passes, plain_passes, tested_units_are_lowerable};
use cf_plain::PlainUnit;
use cf_sound::{file_is_sound, has_main};
use std::alloc::Global;

/// Whether a core is sound, if it has a `main`.
fn sound(alloc: Global, core: &CoreUnit) -> Result<bool, Memory>
    ensures sound { IfOk result (λ is. is ≡ true → IsSound core.now) }
    ensures is { IsSound core.now → IfOk result (λ is. is ≡ true) }
{
    if !has_main(core) {
        return Ok(true);
    }
    let is = file_is_sound(alloc, core)?;
    Ok(is)
}

/// Whether a core passes the tests of lowering, and is sound if it has a `main`. It takes time and memory by the number of nodes. The file defines no class.
pub fn core_fits(alloc: Global, core: &CoreUnit) -> Result<bool, Memory>
    requires { core.now.classes.defined ≡ [] }
    ensures passed { IfOk result (λ is. is ≡ true → CoreFits core.now) }
    ensures passes { CoreFits core.now → IfOk result (λ is. is ≡ true) }
{
    let passes = core_passes(alloc, core)?;
    if !passes {
        return Ok(false);
    }
    let is = sound(alloc, core)?;
    Ok(is)
}

/// Whether what sequencing makes of a core that passes its tests is of the files that the laws of lowering are about.
pub fn is_lowerable(alloc: Global, made: &PlainUnit) -> Result<bool, Memory>
    requires ordered { IsOrdered made.now.types }
    requires no_classes { made.now.classes.defined ≡ [] }
    requires kept { functions_kept (plain.file_of made.now) ≡ true }
    ensures passed { (core : CoreUnit) → IsValid core → Sequences core made.now → CoreTested (file_of core)
        → IfOk result (λ is. is ≡ true → Lowerable (plain.file_of made.now)) }
    ensures passes { Lowerable (plain.file_of made.now) → IfOk result (λ is. is ≡ true) }
{
    tested_units_are_lowerable();
    let is = plain_passes(alloc, made)?;
    Ok(is)
}
