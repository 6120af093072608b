//! What stays while the plain statements of a function run that has to do with no classes and no free store: its frame, and the objects of before it that are not
//! those of its parameters. As definitions and laws; nothing here runs.
#![tactic(auto)]

ghost use Rattle.std.specs.Prelude.{◌≡◌, ℕ, List, [], true, slice_get};
ghost use Rattle.cf_base.specs.World.{World};
ghost use Rattle.cf_core.specs.Core.{Function};
ghost use Rattle.cf_core.specs.Run.{State};
ghost use Rattle.cf_core.specs.Calls.{Program};
ghost use Rattle.cf_plain.specs.Plain.{Plain, PlainFunction};
ghost use Rattle.cf_plain.specs.Acts.{Registers};
ghost use Rattle.cf_plain.specs.Running.{does, runs, entered};
ghost use Rattle.cf_plain_frames.specs.Simple.{simple, functions_simple};
ghost use Rattle.cf_plain_frames.specs.Since.{Since, Always, Keeps};

/// The law that a statement leaves the frame as it is, but for its locals, which have objects of the function's own; and that objects of before do not end in it
/// that are none of the parameters'. So does a function that is entered. It does nothing.
pub fn frames_stay()
    ensures statements { (P : Program) → P.classes ≡ [] → (fs : List PlainFunction) → functions_simple fs ≡ true → (n : ℕ) (st : Plain) → simple st ≡ true
        → (g : Registers) (e : State) (os : List ℕ) → Keeps (Since e os) (does (runs P fs n) P st g) }
    ensures functions { (P : Program) → P.classes ≡ [] → (fs : List PlainFunction) → functions_simple fs ≡ true → (n : ℕ) (f : Function) (os : List ℕ) (s : State)
        (w : World) → ((i : ℕ) → s.frame.locals i ≡ slice_get os i) → Always (Since s os) (runs P fs n (entered f os) s w) }
{}
