//! Actions beside their C as leaves of the statements of a function: what a register is set to, and what is stored, is so in both, and all else stands as it
//! did since the function was entered. As definitions and laws; nothing here runs.
#![tactic(auto)]

ghost use Rattle.std.specs.Prelude.{◌≡◌, ◌<◌, ℤ, true, Bool, Some, ◌||◌};
ghost use Rattle.cf_base.specs.declared.kind.Kind.{Kind};
ghost use Rattle.cf_base.specs.declared.kind.Kind.TheVariants.{Int, UInt};
ghost use Rattle.cf_base.specs.declared.arith.Arith.{Arith};
ghost use Rattle.cf_base.specs.Integers.{fits};
ghost use Rattle.cf_base.specs.Promotion.{promoted};
ghost use Rattle.cf_core.specs.Types.{SourceType};
ghost use Rattle.cf_lower_layout.specs.Sorts.{Sort, address, sort_of};
ghost use Rattle.cf_plain.specs.Plain as plain;
ghost use Rattle.cf_plain.specs.Plain.{Register, Action, act, set};
ghost use Rattle.cf_lower.specs.Kept.{Kept, integer_of, holds, Keeping, local_kept};
ghost use Rattle.cf_lower_steps.specs.Lowering.{Takes};
ghost use Rattle.cf_lower_turns.specs.Around.{Around};
ghost use Rattle.cf_lower_turns.specs.Here.{Narrows};
ghost use Rattle.cf_lower_turns.specs.Scene.{Scene, fixed_in, LeafRuns};
ghost use Rattle.cf_lower_kept.specs.Told.{TellsLess};
ghost use Rattle.cf_lower_leaves.specs.Leaves.{SetBy};

/// The law that a register is a leaf that is set by an action that changes nothing, and has its value in the C. It does nothing.
pub fn steps_are_leaves()
    ensures { (z : Scene) (around : Around Keeping) (p : Keeping) (r : Register) (a : Action) → r < z.body.own.bound → SetBy z around p r a
        → LeafRuns z around p (set r a) }
{}

/// The law that constants, reads of scalars and operators on integers are leaves (2.5, 4.1, 5.6 to 5.13). It does nothing.
pub fn integers_are_leaves()
    ensures numbers { (z : Scene) (around : Around Keeping) (p : Keeping) (r : Register) → r < z.body.own.bound → (n : ℤ) → fits Int n || fits UInt n ≡ true
        → LeafRuns z around p (set r (plain.number n)) }
    ensures reads { (z : Scene) (around : Around Keeping) (p : Keeping) (r : Register) → r < z.body.own.bound → (q : Register) (y : SourceType) (u : Sort)
        → p q ≡ holds (address y) → sort_of y ≡ Some u → LeafRuns z around p (set r (plain.read q)) }
    ensures operators { (z : Scene) (around : Around Keeping) (p : Keeping) (r : Register) → r < z.body.own.bound → (q v : Register) (o : Arith) (k : Kind)
        (f h : Kind → Bool) → promoted k ≡ k → p q ≡ integer_of f → p v ≡ integer_of h → LeafRuns z around p (set r (plain.operate o k q v)) }
{}

/// The law that a store to a scalar is a leaf (5.17). It does nothing.
pub fn stores_are_leaves()
    ensures { (z : Scene) (around : Around Keeping) (p : Keeping) (r q : Register) (y : SourceType) (u : Sort) (x : Kept) (a : Sort) → p r ≡ holds (address y)
        → sort_of y ≡ Some u → p q ≡ x → local_kept x ≡ Some a → Takes u x → LeafRuns z around p (act (plain.store r q)) }
{}

/// The law that what is so of the registers is so still where less is told of them, as at the begin of a turn of what is told at its end. It does nothing.
pub fn turns_narrow()
    ensures { (z : Scene) (g h : Keeping) → TellsLess g h → Narrows (fixed_in z) z.body g h }
{}
