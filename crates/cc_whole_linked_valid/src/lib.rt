//! What linking makes of valid units of the whole small C is valid: the law that a linked program keeps rules V1 to V12, has a text, and is closed.
#![tactic(auto)]

ghost use Rattle.std.specs.Prelude.{◌≡◌, true, List, Result, Ok};
ghost use Rattle.std.specs.List.{list_all};
ghost use Rattle.cc_whole.specs.declared.unit.CProgram.{CProgram};
ghost use Rattle.cc_whole.specs.declared.unit.CUnit.{CUnit};
ghost use Rattle.cc_whole.specs.ValidUnit.{valid_unit, valid_program};
ghost use Rattle.cc_whole_link.specs.Link.{Links};

use cc_whole_closed::linked_programs_are_closed;

/// The law that a program which valid units make when they are linked is valid. It does nothing.
pub fn programs_of_valid_units_are_valid()
    ensures { (units : List CUnit) (program : CProgram) → list_all valid_unit units ≡ true → Links units (Ok program) → valid_program program ≡ true }
{
    linked_programs_are_closed();
}
