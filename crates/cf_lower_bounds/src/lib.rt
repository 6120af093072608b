//! All statements of a function beside their C at a bound of ticks, where single statements do the same at every bound up to it: loops and switches in whatever way
//! they are left, from point to point, with the locals that stand at each. As definitions and laws; nothing here runs.
#![tactic(auto)]

ghost use Rattle.std.specs.Prelude.{◌≡◌, ℕ, ℤ, Some};
ghost use Rattle.cf_core.specs.Run.{State};
ghost use Rattle.cf_core.specs.Store as source;
ghost use Rattle.cf_plain.specs.Plain.{Register, Plains};
ghost use Rattle.cf_plain.specs.Acts.{Registers};
ghost use Rattle.cf_plain.specs.Running.{all};
ghost use Rattle.cc_whole_mean.specs.Flow as c;
ghost use Rattle.cf_lower.specs.Statements.{all_lowered};
ghost use Rattle.cf_lower_turns.specs.Around.{Around, inside_at};
ghost use Rattle.cf_lower_turns.specs.Scene.{Scene, again_at, list_at};
ghost use Rattle.cf_lower_bounds.specs.Points.{Point, At};
ghost use Rattle.cf_lower_bounds.specs.Bounds.{SameAt, LiesWithin, TellsAll, TellsAllBy, NeededTo};

/// The law that statements, in whatever loops and switches they stand and in whatever way they are left, and their C do the same at a bound of ticks where those of
/// them that are no control do at every bound up to it (6.4 to 6.6). It does nothing.
pub fn statements_are_lowered_to_a_bound()
    ensures { (z : Scene) (n : ℕ) (ss : Plains) (around : Around Point) (p q : Point) → NeededTo z n ss around p q
        → SameAt z p around q (all (again_at z n) z.program ss) (λ t w. list_at z n (all_lowered ss (inside_at z.inside around) p.kept) t w) }
{}

/// The law that what is so at one point is so at another that tells no more of registers and of what stands; also where a switch leads to its label. It does nothing.
pub fn points_lie_within()
    ensures within { (z : Scene) (p q : Point) → TellsAll z p q → LiesWithin z p q }
    ensures by_number { (z : Scene) (r : Register) (n : ℤ) (p q : Point) → TellsAllBy z r n p q → (d : ℕ) (g : Registers) (s : State) (t : c.State)
        → g r ≡ Some (source.Number n) → At z p d g s t → At z q d g s t }
{}
