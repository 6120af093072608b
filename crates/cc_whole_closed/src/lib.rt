//! What linking makes of units of the whole small C is closed: the law that a linked program has no static item, defines `main`, and defines each
//! name that it uses but those of the library.
#![tactic(auto)]

ghost use Rattle.std.specs.Prelude.{List, Result, Ok};
ghost use Rattle.cc_whole.specs.declared.unit.CProgram.{CProgram};
ghost use Rattle.cc_whole.specs.declared.unit.CUnit.{CUnit};
ghost use Rattle.cc_whole.specs.Plain.{items_of};
ghost use Rattle.cc_whole_link.specs.Link.{Links};
ghost use Rattle.cc_whole_closed.specs.Closed.{Closed};

/// The law that a program which units make when they are linked is closed, whatever the units are. It does nothing.
pub fn linked_programs_are_closed()
    ensures { (units : List CUnit) (program : CProgram) → Links units (Ok program) → Closed (items_of program.items) }
{}
