//! The arguments of a call where it stands: their objects are in the C locals of their own, differ, and nothing points to them. As definitions and laws; nothing
//! here runs.

ghost use Rattle.std.specs.Prelude.{◌≡◌, ℕ, true, List};
ghost use Rattle.cf_core.specs.Run.{State};
ghost use Rattle.cf_plain.specs.Acts.{Registers};
ghost use Rattle.cc_whole_mean.specs.Flow as c;
ghost use Rattle.cf_lower.specs.Kept.{Keeping};
ghost use Rattle.cf_lower_relate.specs.Map.{Fixed};
ghost use Rattle.cf_lower_turns.specs.Here.{Body, Here};
ghost use Rattle.cf_lower_calls.specs.Evaluated.Arguments.{Differ, InTheirLocals};
ghost use Rattle.cf_lower_calls.specs.Arguments.Passing.{Shaped, are_passed, ArgumentsThere, AllInOwn};

/// The law that the objects of the arguments of a call, which stand and have values, are in their C locals, from which the C reads them; that no two are the same;
/// and that nothing points to them (5.2.2). It does nothing.
pub fn arguments_stand_in_their_locals()
    ensures read { (K : Fixed) (at : Body) (p : Keeping) (d : ℕ) (g : Registers) (s : State) (t : c.State) (h : Here K at p d g s t) → Shaped at.own at.scope
        → (is os : List ℕ) → are_passed at.own.locals is ≡ true → ArgumentsThere s is os → InTheirLocals K h.map at.scope s is os }
    ensures differ { (K : Fixed) (at : Body) (p : Keeping) (d : ℕ) (g : Registers) (s : State) (t : c.State) (h : Here K at p d g s t) (is os : List ℕ)
        → are_passed at.own.locals is ≡ true → ArgumentsThere s is os → Differ os }
    ensures own { (K : Fixed) (at : Body) (p : Keeping) (d : ℕ) (g : Registers) (s : State) (t : c.State) (h : Here K at p d g s t) (is os : List ℕ)
        → are_passed at.own.locals is ≡ true → ArgumentsThere s is os → AllInOwn at.own h.map os }
{}
