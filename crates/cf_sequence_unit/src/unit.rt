ghost use Rattle.std.specs.Prelude.{◌≡◌, ◌∷◌, [], ℕ, List, Some, None, IfOk};
ghost use Rattle.cf_base.specs.World.{Outcome};
ghost use Rattle.cf_core.specs.FromUnit.{units_mean};
ghost use Rattle.cf_plain.specs.Joined.{files_mean};
ghost use Rattle.cf_plain.specs.View as plain;
ghost use Rattle.cf_sequence_built.specs.Unbuilt.{in_file};
ghost use Rattle.cf_sequence_unit.specs.Sequences.{IsSequenced, Gives};

use crate::fault::SequenceFault;
use cf_base::Memory;
use cf_core::CoreUnit;
use cf_frame::frames;
use cf_plain::PlainUnit;
use cf_sequence_built::unbuilt;
use cf_sequence_fn::{functions, objects};
use std::alloc::Global;

/// The plain unit of a file of built functions and static objects.
fn sequenced(alloc: Global, unit: CoreUnit) -> Result<PlainUnit, Memory>
    requires { in_file unit ≡ None }
    ensures { IfOk result (λ made. IsSequenced unit made) }
{
    let _valid = unit.functions();
    let functions = functions(alloc, &unit)?;
    let objects = objects(alloc, &unit)?;
    let bounds = frames(alloc, &unit)?;
    let (types, classes) = unit.into_tables();
    Ok(PlainUnit::new(types, classes, functions, objects, bounds))
}

/// The plain statements of a file, which have the meaning of its core: its types and classes are handed on, each of its functions is that of
/// `cf_sequence`'s definition, and each has the bound of its frame.
///
/// What is not built is refused by the byte place of its first construct: classes, and static objects whose initialisers are not constant.
pub fn sequence(alloc: Global, unit: CoreUnit) -> Result<PlainUnit, SequenceFault>
    ensures value { Gives unit result }
    ensures meaning { IfOk result (λ made. (input : List ℕ) (heap depth n : ℕ) (x : Outcome)
        → units_mean (unit ∷ []) input heap depth n ≡ Some x → files_mean (plain.file_of made ∷ []) input heap depth n ≡ Some x) }
{
    let _valid = unit.functions();
    if let Some(at) = unbuilt(&unit) {
        return Err(SequenceFault::NotBuilt { at });
    }
    Ok(sequenced(alloc, unit)?)
}
