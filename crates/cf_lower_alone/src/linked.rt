//! The C program of one lowered file, whose unit is linked alone: its functions and variables by their names in the program. As definitions and a law; nothing here runs.

ghost use Rattle.std.specs.Prelude.{[], ◌∷◌, Ok};
ghost use Rattle.cf_plain.specs.Plain.{PlainFile};
ghost use Rattle.cc_whole.specs.declared.unit.CUnit.{CUnit};
ghost use Rattle.cc_whole.specs.declared.unit.CProgram.{CProgram};
ghost use Rattle.cc_whole_link.specs.Link.{Links};
ghost use Rattle.cf_lower_program.specs.Agrees.{IsLowered};
ghost use Rattle.cf_lower_program.specs.Lowerable.{Lowerable};
ghost use Rattle.cf_lower_alone.specs.Linked.{LinkedAlone};

/// The law that the program which the unit of a lowered file is linked to alone has the C of each function of the file, and its static objects and literals, by their names
/// there, and else what is called before `main`, and `main` (3.3, 3.4). It does nothing.
pub fn a_lowered_file_links_alone()
    ensures { (file : PlainFile) (unit : CUnit) (program : CProgram) → Lowerable file → IsLowered file unit → Links (unit ∷ []) (Ok program) → LinkedAlone file program }
{}
