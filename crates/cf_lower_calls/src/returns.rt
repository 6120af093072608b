//! Functions that come back to their callers: what one owes that is entered with the same arguments in both, and that its caller then stands as before. As
//! definitions and laws; nothing here runs.

ghost use Rattle.std.specs.Prelude.{◌≡◌, ℕ, ◌<◌, true, List, Option};
ghost use Rattle.cf_core.specs.Store as source;
ghost use Rattle.cf_core.specs.Run.{State, with_frame};
ghost use Rattle.cf_lower_layout.specs.Sorts.{Sort};
ghost use Rattle.cf_plain.specs.Acts.{Registers};
ghost use Rattle.cc_whole_mean.specs.Flow as c;
ghost use Rattle.cc_whole_mean.specs.Flow.{ending_state};
ghost use Rattle.cf_lower.specs.Kept.{Keeping};
ghost use Rattle.cf_lower_relate.specs.Map.{Fixed, Map, is_hidden};
ghost use Rattle.cf_lower_turns.specs.Here.{Body, Here};
ghost use Rattle.cf_plain_frames.specs.Since.{is_among};
ghost use Rattle.cf_lower_calls.specs.Returns.Called.{EntryMap, CameBack};

/// The law that a caller stands as before where a function has come back and the blocks of its parameters have ended: registers, flags, locals, literals and the
/// objects of other arguments (5.2.2). It does nothing.
pub fn callers_stand_again()
    ensures { (K : Fixed) (at : Body) (p : Keeping) (d : ℕ) (g : Registers) (s : State) (t : c.State) (h : Here K at p d g s t) (os : List ℕ) (E : Map)
        → EntryMap h.map E t.memory.next os
        → ((o : ℕ) → is_among o os ≡ true → o < at.start.count → is_hidden (at.start.stage o) ≡ true → ⊥)
        → (result : Option Sort) (v : source.Value) (u : State) (flow : c.Flow)
        → (back : CameBack K at.texts E t.memory s os result v u flow) → (k : ℕ) → Here K at p d g (with_frame s.frame u) (ending_state k t.memory.next back.after) }
{}
