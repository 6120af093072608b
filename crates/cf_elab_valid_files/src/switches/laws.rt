//! The law of switches: a function that does nothing, and whose contract is the law.

ghost use Rattle.cf_elab_valid_files.specs.Switches.Laws.{SwitchesAreValid};

/// What is made of a `switch` fits the function at hand, where its operand is fine and its braces hold fine statements and labels (6.4.2).
pub fn switches_are_valid()
    ensures { SwitchesAreValid }
{}
