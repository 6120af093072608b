//! Statements that are no control as leaves between the points of a function: from a point at which locals stand to that behind the statement. As definitions and
//! laws; nothing here runs.
#![tactic(auto)]

ghost use Rattle.std.specs.Prelude.{◌≡◌, ℕ, true, List};
ghost use Rattle.cf_plain.specs.Plain.{Plain};
ghost use Rattle.cf_plain_kept.specs.Kept as plain;
ghost use Rattle.cf_lower.specs.Kept.{Keeping};
ghost use Rattle.cf_lower_kept.specs.Opened.{Opened};
ghost use Rattle.cf_lower_kept.specs.Told.{AllTold};
ghost use Rattle.cf_lower_turns.specs.Around.{Around};
ghost use Rattle.cf_lower_turns.specs.Scene.{Scene};
ghost use Rattle.cf_lower_actions.specs.Fits.{Fits};
ghost use Rattle.cf_lower_actions.specs.Leaf.{is_leaf};
ghost use Rattle.cf_lower_bounds.specs.Points.{Point, point_at, point_never};
ghost use Rattle.cf_lower_bounds.specs.Bounds.{LeafRunsTo};
ghost use Rattle.cf_lower_points.specs.Leading.{leads_on, point_behind};

/// The law that a statement that is no control leads in both from a point to the next, where plain statements tell that it may stand there (4 to 6, 6.7). It does
/// nothing.
pub fn leaves_lead_on()
    ensures { (z : Scene) → Fits z → (around : Around Point) (g : plain.Keeping) (h : Keeping) (xs : List Opened) → AllTold z.inside.locals g h → (s : Plain)
        → is_leaf z h s ≡ true → leads_on g s xs ≡ true → (n : ℕ) → LeafRunsTo z n around (point_at h xs) s (point_behind z.inside.locals g h s xs) }
{}

/// The law that where control does not come any statement leads anywhere. It does nothing.
pub fn nothing_runs_where_control_does_not_come()
    ensures { (z : Scene) (around : Around Point) (h : Keeping) (s : Plain) (q : Point) (n : ℕ) → LeafRunsTo z n around (point_never h) s q }
{}
