//! Functions of both programs that pass tests do the same at every bound of ticks: their statements have what they need, by what is open at each and what registers hold.
//! Functions of lowered files pass them, where the names of their actions stand for what their types say. As definitions and laws; nothing here runs.
#![tactic(auto)]

ghost use Rattle.std.specs.Prelude.{◌≡◌, ℕ, true, List, map};
ghost use Rattle.std.specs.List.{list_all};
ghost use Rattle.cf_core.specs.Core.{Function};
ghost use Rattle.cf_plain.specs.Plain.{PlainFunction, PlainFile};
ghost use Rattle.cf_plain.specs.Joined.{program_of};
ghost use Rattle.cf_plain.specs.Running.{header};
ghost use Rattle.cf_lower_place.specs.Named.{is_signature};
ghost use Rattle.cf_lower_calls.specs.Returns.Called.{Programs, FunctionsAlike};
ghost use Rattle.cf_lower_calls.specs.Entered.Lowered.{Fitting, AllLowered, AllHaveNeeds};
ghost use Rattle.cf_lower_program.specs.Lowerable.{Lowerable};
ghost use Rattle.cf_lower_tested.specs.Tested.{Joined, Tested, AllTested};
ghost use Rattle.cf_lower_tested.specs.Named.{passes, AllLowerable, NamesTyped, NamesThere, AllNamesThere};

/// The law that at each bound of ticks, up to which functions do the same, the statements of functions that pass the tests have what they need from where they are entered.
/// It does nothing.
pub fn tested_functions_have_needs()
    ensures { (B : Programs) → Fitting B → AllLowered B → Joined B → AllTested B → AllHaveNeeds B }
{}

/// The law that functions of both programs do the same at every bound of ticks where the C is lowered, its names stand for functions and literals, and they pass the tests
/// (5.2.2, 6.4 to 6.7). It does nothing.
pub fn tested_functions_are_alike()
    ensures { (B : Programs) → Fitting B → AllLowered B → Joined B → AllTested B → (n : ℕ) → FunctionsAlike B n }
{}

/// The law that each function of a lowered file, and of lowered files that are joined, is in place by name, and of each of its statements is told what registers hold and what
/// is open there; and its type has no const on a part of it. It does nothing.
pub fn functions_of_files_pass()
    ensures one { (file : PlainFile) → Lowerable file → list_all (λ (f : PlainFunction). passes f) file.functions ≡ true }
    ensures joined { (files : List PlainFile) → AllLowerable files → list_all (λ (f : PlainFunction). passes f) (program_of files).functions ≡ true }
    ensures shaped { (fs : List PlainFunction) → list_all (λ (f : PlainFunction). passes f) fs ≡ true
        → list_all (λ (g : Function). is_signature g.type) (map header fs) ≡ true }
{}

/// The law that functions that are in place by name pass the tests of programs in which their names stand for what their types say. It does nothing.
pub fn named_functions_are_tested()
    ensures one { (B : Programs) → Fitting B → NamesTyped B → (f : PlainFunction) → NamesThere B f → Tested B f }
    ensures each { (B : Programs) → Fitting B → NamesTyped B → AllNamesThere B → AllTested B }
{}
