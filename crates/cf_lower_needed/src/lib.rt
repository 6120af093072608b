//! What the statements of a function need, from tests of them: by what is open at each (`Opened` of `cf_lower_kept`), where those that are no control lead from point to
//! point. As definitions and laws; nothing here runs.
#![tactic(auto)]

ghost use Rattle.std.specs.Prelude.{◌≡◌, ℕ, ◌≤◌, Bool, true, false, List, []};
ghost use Rattle.cf_plain.specs.Plain.{Plain, Plains};
ghost use Rattle.cf_plain_kept.specs.Kept.{nothing_set};
ghost use Rattle.cf_lower.specs.Kept.{Keeping, nothing_kept, after_all};
ghost use Rattle.cf_lower.specs.Functions.{all_nesting};
ghost use Rattle.cf_lower_kept.specs.Opened.{Opened, comes_to, all_open};
ghost use Rattle.cf_lower_kept.specs.Ready.{all_ready};
ghost use Rattle.cf_lower_turns.specs.Around.{function};
ghost use Rattle.cf_lower_turns.specs.Scene.{Scene};
ghost use Rattle.cf_lower_bounds.specs.Points.{point_at};
ghost use Rattle.cf_lower_bounds.specs.Bounds.{NeededTo};
ghost use Rattle.cf_lower_place.specs.InPlace.{all_in_place};
ghost use Rattle.cf_lower_needed.specs.Leading.{no_ways, LeavesLead};

/// The law that the statements of a function have what they need, from where these parameters are open to where nothing is, where they pass the tests of what is open and of
/// what lowering asks, and those that are no control lead on (6.4 to 6.7). It does nothing.
pub fn statements_have_what_they_need()
    ensures { (z : Scene) (n : ℕ) (fits : Keeping → Plain → Bool) → LeavesLead z n fits → (ss : Plains) (xs : List Opened) → all_nesting ss ≤ z.body.flags.bound
        → all_ready z.inside.locals.types z.inside.result ss nothing_set ≡ true → all_in_place z.inside.locals fits false false ss nothing_kept ≡ true
        → comes_to [] (all_open z.inside.locals.types z.inside.result ss nothing_set no_ways xs) ≡ true
        → NeededTo z n ss function (point_at nothing_kept xs) (point_at (after_all z.inside.locals ss nothing_kept) []) }
{}
