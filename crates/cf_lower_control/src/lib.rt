//! Loops, and the ways out of statements, beside their C. As laws; nothing here runs.
#![tactic(auto)]

ghost use Rattle.std.specs.Prelude.{◌≡◌, [], ◌∷◌, Some};
ghost use Rattle.cf_lower_layout.specs.Sorts.{Sort, sort_of};
ghost use Rattle.cf_plain.specs.Plain as plain;
ghost use Rattle.cf_plain.specs.Plain.{Register, Plains};
ghost use Rattle.cc_whole.specs.Plain as c;
ghost use Rattle.cf_lower_relate.specs.Map.{Map, Grows};
ghost use Rattle.cf_lower.specs.Kept.{Kept, Keeping, local_kept};
ghost use Rattle.cf_lower_steps.specs.Lowering.{Takes};
ghost use Rattle.cf_lower_steps.specs.Moment.{Moment, fixed, Stands, Lowers};
ghost use Rattle.cf_lower_control.specs.Loops.{Around, function, turns, ways_of, Weaker, Adding, at_turns, EachTurn, NextTurns};

/// The law that a loop without a step does the same in both, turn by turn, each turn spending a tick, where a turn does (6.5). It does nothing.
pub fn loops_are_turned()
    ensures { (at : Moment) → Stands at → Adding at.c_again → Adding at.helps → (ss : Plains) (around : Around)
        → NextTurns at ss (ways_of (fixed at) at.own at.scope around) → EachTurn at ss (ways_of (fixed at) at.own at.scope around)
        → Lowers at (plain.loop ss plain.nothing) (at_turns at ss) (ways_of (fixed at) at.own at.scope around) }
{}

/// The law that `break` and `continue` in a loop without a step are the C's (6.6.1, 6.6.2). It does nothing.
pub fn loops_are_left()
    ensures leave { (at : Moment) → Stands at → (E : Map) → Grows E at.map → (outer : Keeping) → Weaker (fixed at) at.scope at.kept outer → (around : Around)
        → at.inside.leaving ≡ c.leave ∷ [] → Lowers at plain.leave at.kept (ways_of (fixed at) at.own at.scope (turns E outer around)) }
    ensures next { (at : Moment) → Stands at → (E : Map) → Grows E at.map → (outer : Keeping) → Weaker (fixed at) at.scope at.kept outer → (around : Around)
        → at.inside.going_on ≡ c.next ∷ [] → Lowers at plain.continue at.kept (ways_of (fixed at) at.own at.scope (turns E outer around)) }
{}

/// The law that a function that gives a scalar gives the same value in both (6.6.3). It does nothing.
pub fn values_are_returned()
    ensures { (at : Moment) → Stands at → Adding at.c_again → Adding at.helps → (E : Map) → Grows E at.map → (r : Register) (u : Sort) (x : Kept) (b : Sort)
        → sort_of at.inside.result ≡ Some u → at.kept r ≡ x → local_kept x ≡ Some b → Takes u x → Lowers at (plain.give (Some r)) at.kept (ways_of (fixed at) at.own at.scope (function E u)) }
{}
