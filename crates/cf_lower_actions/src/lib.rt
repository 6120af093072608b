//! Every action beside its C as a leaf of the statements of a function: what registers hold before a statement decides that it and its C do the same. As
//! definitions and laws; nothing here runs.
#![tactic(auto)]

ghost use Rattle.std.specs.Prelude.{◌≡◌, ◌<◌, true};
ghost use Rattle.cf_plain.specs.Plain.{Register, Action, Plain, act, set};
ghost use Rattle.cf_lower.specs.Kept.{Keeping};
ghost use Rattle.cf_lower_turns.specs.Around.{Around};
ghost use Rattle.cf_lower_turns.specs.Scene.{Scene, LeafRuns};
ghost use Rattle.cf_lower_actions.specs.Fits.{Fits};
ghost use Rattle.cf_lower_actions.specs.Given.{Given, Silent};
ghost use Rattle.cf_lower_actions.specs.Leaf.{gives_value, is_leaf, RunsAlike};

/// The law that an action that gives a value and changes nothing makes leaves: where its value is kept, where it is dropped, and where nothing is kept of it. It
/// does nothing.
pub fn values_make_leaves()
    ensures kept { (z : Scene) (around : Around Keeping) (p : Keeping) (r : Register) (a : Action) → r < z.body.own.bound → Given z around p a
        → LeafRuns z around p (set r a) }
    ensures dropped { (z : Scene) (around : Around Keeping) (p : Keeping) (a : Action) → Given z around p a → LeafRuns z around p (act a) }
    ensures silent { (z : Scene) (around : Around Keeping) (p : Keeping) (r : Register) (a : Action) → Silent z around p a → LeafRuns z around p (set r a) }
    ensures silent_dropped { (z : Scene) (around : Around Keeping) (p : Keeping) (a : Action) → Silent z around p a → LeafRuns z around p (act a) }
{}

/// The law that actions on values, by what their operands hold, give the same in both (4, 5). It does nothing.
pub fn values_are_given()
    ensures { (z : Scene) → Fits z → (around : Around Keeping) (p : Keeping) (a : Action) → gives_value z p a ≡ true → Given z around p a }
{}

/// The law that the statements that are no control, and their C, do the same at every bound of ticks: those that set registers, begin, store and end objects, and
/// return (4 to 6). It does nothing.
pub fn leaves_run_alike()
    ensures { (z : Scene) → Fits z → (around : Around Keeping) (p : Keeping) (st : Plain) → is_leaf z p st ≡ true → RunsAlike z around p st }
{}
