//! Where there are no classes, a run of plain functions leaves no static object to be destroyed. As definitions and a law; nothing here runs.
#![tactic(auto)]

ghost use Rattle.std.specs.Prelude.{◌≡◌, ℕ, List, [], true, None};
ghost use Rattle.cf_core.specs.Types.{Name};
ghost use Rattle.cf_core.specs.Calls.{Program, run_named};
ghost use Rattle.cf_plain.specs.Plain.{PlainFunction};
ghost use Rattle.cf_plain.specs.Running.{runs, calls};
ghost use Rattle.cf_plain_frames.specs.Simple.{functions_simple};
ghost use Rattle.cf_plain_finished.specs.Finished.{Keeps, NoneFinished};

/// The law that a function that runs without classes and free store adds no static object to those that are to be destroyed, where it comes back and where `exit` is called
/// (3.4). It does nothing.
pub fn nothing_is_to_be_destroyed()
    ensures { (P : Program) → P.classes ≡ [] → (fs : List PlainFunction) → functions_simple fs ≡ true → (n : ℕ) (name : Name) (os : List ℕ)
        → Keeps NoneFinished (run_named (calls (runs P fs n)) P name os None None) }
{}
