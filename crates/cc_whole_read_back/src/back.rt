//! What is printed is read back.

ghost use Rattle.std.specs.Prelude.{◌≡◌, Result, true};
ghost use Rattle.cc_whole.specs.declared.unit.CUnit.{CUnit};
ghost use Rattle.cc_whole.specs.ValidUnit.{valid_unit};
ghost use Rattle.cc_whole_print.specs.Units.{unit_text};
ghost use Rattle.cc_whole_read.specs.declared.error.ReadErr.{ReadErr};
ghost use Rattle.cc_whole_read.specs.Read.{Within, IsRead, IsUnit};

use cc_whole_printed::{printed_text_is_its_text, valid_units_are_written};
use cc_whole_read::text_of_a_valid_unit_is_read;

/// The law that the text which is printed for a valid unit, within the limits, is read as that unit, unless memory fails. It does nothing.
pub fn printed_units_are_read_back()
    ensures { (unit : CUnit) (answer : Result CUnit ReadErr) → valid_unit unit ≡ true → Within (unit_text unit) → IsRead (unit_text unit) answer
        → IsUnit unit answer }
{
    printed_text_is_its_text();
    valid_units_are_written();
    text_of_a_valid_unit_is_read();
}
