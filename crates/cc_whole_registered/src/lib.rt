//! What valid programs of the whole small C register for `exit`. As definitions and a law; nothing here runs.
#![tactic(auto)]

ghost use Rattle.std.specs.Prelude.{◌≡◌, List, false};
ghost use Rattle.cc_whole.specs.Plain.{Item};
ghost use Rattle.cc_whole.specs.Fault.{fine};
ghost use Rattle.cc_whole.specs.Valid.{first_fault};
ghost use Rattle.cc_whole_registered.specs.Registered.{declares_atexit, RegistersNothing};

/// The law that a valid program which does not declare `atexit` has nothing registered where its `main` comes back or calls `exit`: the function's number is in no value. It
/// does nothing.
pub fn valid_programs_register_nothing()
    ensures { (items : List Item) → first_fault items ≡ fine → declares_atexit items ≡ false → RegistersNothing items }
{}
