//! Laws of declarations: functions that do nothing, and whose contracts are the laws.

ghost use Rattle.cf_elab_valid_files.specs.Declarations.Laws.{EnumerationsAreValid};

/// What is made of an enumeration is the number of its type, and its names stand for numbers of that type (7.2).
pub fn enumerations_are_valid()
    ensures { EnumerationsAreValid }
{}
