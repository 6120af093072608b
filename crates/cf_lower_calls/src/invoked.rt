//! Calls of the program's functions as statements of others, beside their C: where functions do the same at every bound of ticks up to one, calls of them are leaves
//! between the points of their callers. As definitions and laws; nothing here runs.

ghost use Rattle.std.specs.Prelude.{◌≡◌, ◌≤◌, ℕ, List, [], true, None};
ghost use Rattle.cf_core.specs.Types.{SourceType, same_but_const};
ghost use Rattle.cf_core.specs.Core.{Function};
ghost use Rattle.cf_plain.specs.Plain as plain;
ghost use Rattle.cf_plain.specs.Plain.{Register, act, set};
ghost use Rattle.cf_plain_frames.specs.Simple.{functions_simple};
ghost use Rattle.cc_whole.specs.Plain as c_tree;
ghost use Rattle.cf_lower.specs.Kept.{Keeping};
ghost use Rattle.cf_lower_kept.specs.Opened.{Opened};
ghost use Rattle.cf_lower_turns.specs.Around.{Around};
ghost use Rattle.cf_lower_turns.specs.Scene.{Scene};
ghost use Rattle.cf_lower_calls.specs.Returns.Called.{Pair, FunctionsAlike};
ghost use Rattle.cf_lower_points.specs.BoundsPoints.{Point, point_at};
ghost use Rattle.cf_lower_points.specs.BoundsBounds.{LeafRunsTo};
ghost use Rattle.cf_lower_calls.specs.Invoked.Invoking.{programs_of, Invokes, KeepsResult, all_valued, point_called, point_kept};

/// The law that a call whose result is not kept leads in both from a point to the next, where its arguments have their values, at a bound of ticks up to which functions
/// that are entered do the same (5.2.2). Where the call has another type than the function the source's run ends. It does nothing.
pub fn calls_lead_on()
    ensures { (z : Scene) → z.program.classes ≡ [] → functions_simple z.functions ≡ true → (n : ℕ) → ((k : ℕ) → k ≤ n → FunctionsAlike (programs_of z) k)
        → (around : Around Point) (h : Keeping) (xs : List Opened) (f : Function) (e : c_tree.Function) → Pair (programs_of z) f e → (is : List ℕ) (t : SourceType)
        → (same_but_const f.type t ≡ true → Invokes z f is) → all_valued is xs ≡ true
        → LeafRunsTo z n around (point_at h xs) (act (plain.call f.name t None is None)) (point_called h is xs) }
{}

/// The law that so does a call whose result is kept in a register, or would be if it were not void. It does nothing.
pub fn calls_that_are_kept_lead_on()
    ensures { (z : Scene) → z.program.classes ≡ [] → functions_simple z.functions ≡ true → (n : ℕ) → ((k : ℕ) → k ≤ n → FunctionsAlike (programs_of z) k)
        → (around : Around Point) (h : Keeping) (xs : List Opened) (f : Function) (e : c_tree.Function) → Pair (programs_of z) f e → (is : List ℕ) (t : SourceType) (r : Register)
        → (same_but_const f.type t ≡ true → Invokes z f is × KeepsResult z f t r) → all_valued is xs ≡ true
        → LeafRunsTo z n around (point_at h xs) (set r (plain.call f.name t None is None)) (point_kept h r t is xs) }
{}
