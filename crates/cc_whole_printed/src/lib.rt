//! What the printed text of a unit of the whole small C is: the laws that it is a text of that unit. In `specs/` stand the trees
//! that have a text.
#![tactic(auto)]

ghost use Rattle.std.specs.Prelude.{◌≡◌, true};
ghost use Rattle.cc_whole.specs.declared.unit.CUnit.{CUnit};
ghost use Rattle.cc_whole.specs.Text.{Text};
ghost use Rattle.cc_whole.specs.ValidUnit.{valid_unit};
ghost use Rattle.cc_whole_print.specs.Units.{unit_text};
ghost use Rattle.cc_whole_printed.specs.Written.{written_unit};

/// The law that the text which is printed for a unit is a text of that unit, where names are names and constants fit. It does nothing.
pub fn printed_text_is_its_text()
    ensures { (unit : CUnit) → written_unit unit ≡ true → Text (unit_text unit) unit }
{}

/// The law that in a valid unit names are names and constants fit. It does nothing.
pub fn valid_units_are_written()
    ensures { (unit : CUnit) → valid_unit unit ≡ true → written_unit unit ≡ true }
{}
