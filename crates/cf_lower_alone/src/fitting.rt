//! Both programs of one file, whose unit is linked alone: the C of each function is lowered, names stand for functions and literals, and each function has its number. As
//! definitions and a law; nothing here runs.

ghost use Rattle.std.specs.Prelude.{[], ◌∷◌, Ok};
ghost use Rattle.cf_plain.specs.Plain.{PlainFile};
ghost use Rattle.cc_whole.specs.declared.unit.CUnit.{CUnit};
ghost use Rattle.cc_whole.specs.declared.unit.CProgram.{CProgram};
ghost use Rattle.cc_whole_link.specs.Link.{Links};
ghost use Rattle.cf_lower_program.specs.Agrees.{IsLowered};
ghost use Rattle.cf_lower_program.specs.Lowerable.{Lowerable};
ghost use Rattle.cf_lower_alone.specs.Programs.{programs, FitTogether};

/// The law that a lowered file and the program that its unit is linked to alone have what the law on functions of both programs asks: the C's names stand for functions and
/// literals, functions have their numbers, and the C of each is lowered (3.3). It does nothing.
pub fn one_file_fits()
    ensures { (file : PlainFile) (unit : CUnit) (program : CProgram) → Lowerable file → IsLowered file unit → Links (unit ∷ []) (Ok program)
        → FitTogether (programs (file ∷ []) program) }
{}
