//! The answers that one text has.

ghost use Rattle.std.specs.Prelude.{◌≡◌, List, ℕ, Result, false};
ghost use Rattle.cc_whole.specs.declared.unit.CUnit.{CUnit};
ghost use Rattle.cc_whole_read.specs.declared.error.ReadErr.{ReadErr};
ghost use Rattle.cc_whole_read.specs.Read.{IsRead};
ghost use Rattle.cc_whole_read_back.specs.Memory.{is_memory};
ghost use Rattle.cc_whole_read_back.specs.Some.{HasAnswer};

/// The law that a text has at most one answer of reading, want of memory apart. It does nothing.
pub fn text_has_one_answer()
    ensures { (text : List ℕ) (one other : Result CUnit ReadErr) → IsRead text one → IsRead text other → is_memory one ≡ false → is_memory other ≡ false
        → one ≡ other }
{}

/// The law that a text has an answer of reading that is no want of memory. It does nothing.
pub fn text_has_an_answer()
    ensures { (text : List ℕ) → HasAnswer text }
{}
