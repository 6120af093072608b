//! One lowered file, linked alone and run, against what its source means. As a law; nothing here runs.

ghost use Rattle.std.specs.Prelude.{List, [], ◌∷◌, Ok};
ghost use Rattle.cf_plain.specs.Plain.{PlainFile};
ghost use Rattle.cc_whole.specs.declared.unit.CUnit.{CUnit};
ghost use Rattle.cc_whole.specs.declared.unit.CProgram.{CProgram};
ghost use Rattle.cc_whole_link.specs.Link.{Links};
ghost use Rattle.cf_lower_program.specs.Agrees.{IsLowered, ProgramAgrees};
ghost use Rattle.cf_lower_program.specs.Lowerable.{Lowerable};

use cc_whole_linked_valid::programs_of_valid_units_are_valid;

/// The law that the program which the unit of a lowered file is linked to alone does what the file means, for every input of bytes, heap limit, depth limit and bound of ticks
/// (3.4). It does nothing.
pub fn one_file_agrees()
    ensures { (file : PlainFile) (unit : CUnit) (program : CProgram) → Lowerable file → IsLowered file unit → Links (unit ∷ []) (Ok program)
        → ProgramAgrees (file ∷ []) program }
{
    programs_of_valid_units_are_valid();
}
