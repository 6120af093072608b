//! What the answers of `read` tell.

ghost use Rattle.std.specs.Prelude.{◌≡◌, ℕ, List, Result, true};
ghost use Rattle.cc_whole.specs.declared.unit.CUnit.{CUnit};
ghost use Rattle.cc_whole.specs.Text.{Text};
ghost use Rattle.cc_whole.specs.ValidUnit.{valid_unit};
ghost use Rattle.cc_whole_read.specs.declared.error.ReadErr.{ReadErr};
ghost use Rattle.cc_whole_read.specs.Read.{Within, IsNotC, IsRead, IsUnit};

/// The law that two units which have one text are equal. It does nothing.
pub fn text_has_one_unit()
    ensures { (text : List ℕ) (u v : CUnit) → Text text u → Text text v → u ≡ v }
{}

/// The law that a text of a valid unit, within the limits, is read as that unit, unless memory fails. It does nothing.
pub fn text_of_a_valid_unit_is_read()
    ensures { (text : List ℕ) (unit : CUnit) → Text text unit → (answer : Result CUnit ReadErr) → valid_unit unit ≡ true → Within text → IsRead text answer
        → IsUnit unit answer }
{}

/// The law that a text stops being C at one place, and then no unit has it. It does nothing.
pub fn text_stops_at_one_place()
    ensures one { (text : List ℕ) (at other : ℕ) → IsNotC text at → IsNotC text other → at ≡ other }
    ensures none { (text : List ℕ) (at : ℕ) (unit : CUnit) → IsNotC text at → Text text unit → ⊥ }
{}
