//! What stands in both programs of one linked file as they start, before constant initialisers take effect. As definitions and a law; nothing here runs.

ghost use Rattle.std.specs.Prelude.{ℕ, [], ◌∷◌, Ok};
ghost use Rattle.cf_plain.specs.Plain.{PlainFile};
ghost use Rattle.cc_whole.specs.declared.unit.CUnit.{CUnit};
ghost use Rattle.cc_whole.specs.declared.unit.CProgram.{CProgram};
ghost use Rattle.cc_whole.specs.Plain.{items_of};
ghost use Rattle.cc_whole_link.specs.Link.{Links};
ghost use Rattle.cc_whole_mean.specs.Start.{first_state};
ghost use Rattle.cf_lower_program.specs.Agrees.{IsLowered};
ghost use Rattle.cf_lower_program.specs.Lowerable.{Lowerable};
ghost use Rattle.cf_lower_alone.specs.Programs.{programs};
ghost use Rattle.cf_lower_alone.specs.Starts.{Starts};

/// The law that as the program of a lowered file starts, its static objects stand in the variables of their names, zeroed, and its literals have their
/// bytes there, no object standing in them yet (2.5.4, 3.4, 8.4). It does nothing.
pub fn one_file_starts()
    ensures { (file : PlainFile) (unit : CUnit) (program : CProgram) (depth : ℕ) → Lowerable file → IsLowered file unit → Links (unit ∷ []) (Ok program)
        → Starts (programs (file ∷ []) program) depth (first_state (items_of program.items)).memory }
{}
