//! Each plain statement beside its C: what it gives and what it does to the objects is what the C statements do that it is lowered to. As definitions and laws;
//! nothing here runs.
#![tactic(auto)]

ghost use Rattle.std.specs.Prelude.{◌≡◌, ℕ, ◌<◌, Bool, true, List, Option, Some};
ghost use Rattle.cf_base.specs.declared.kind.Kind.{Kind};
ghost use Rattle.cf_base.specs.declared.arith.Arith.{Arith};
ghost use Rattle.cf_base.specs.Promotion.{promoted};
ghost use Rattle.cf_base.specs.World.{World};
ghost use Rattle.cf_core.specs.Types.{SourceType};
ghost use Rattle.cf_core.specs.Run.{State};
ghost use Rattle.cf_core.specs.Calls.{Program};
ghost use Rattle.cf_lower_layout.specs.Sorts.{Sort, address, sort_of};
ghost use Rattle.cf_plain.specs.Plain.{Register, act, set, read, operate, store};
ghost use Rattle.cf_plain.specs.Acts.{Registers};
ghost use Rattle.cf_plain.specs.Running.{Again, does};
ghost use Rattle.cc_whole_mean.specs.Scope.{Scope};
ghost use Rattle.cc_whole_mean.specs.Flow as c;
ghost use Rattle.cc_whole_mean.specs.Mean as mean;
ghost use Rattle.cf_lower_relate.specs.Map.{Map};
ghost use Rattle.cf_lower.specs.Kept.{Kept, integer_of, holds, Keeping, keep, local_kept, of_sort, result_kept};
ghost use Rattle.cf_lower.specs.Statements.{Inside, lowered};
ghost use Rattle.cf_lower_steps.specs.Own.{Own};
ghost use Rattle.cf_lower_steps.specs.Flows.{Between, Simulates, Ends};
ghost use Rattle.cf_lower_steps.specs.Lowering.{fixed_of, runs, Takes, Below, falls_only};

/// The law that a register into which a scalar is read has its value in the C local that it is lowered to, and nothing else has changed. It does nothing.
pub fn reads_are_lowered()
    ensures { (P : Program) (function : List ℕ → ℕ) (signature : List ℕ → SourceType) (own : Own) (scope : Scope) (F : Map) (kept : Keeping) (g : Registers)
        (s : State) (t : c.State) (w : World) → Between (fixed_of P function signature) own scope F kept g s t.memory → Below own kept
        → (again : Again) (go helps : mean.Again) (p : mean.Program) (helper : Bool) (depth : ℕ) (x : Inside)
        → (r q : Register) (y : SourceType) (u : Sort) → r < own.bound → kept q ≡ holds (address y) → sort_of y ≡ Some u
        → Simulates (Ends (fixed_of P function signature) own scope F (keep kept r (of_sort (Some u))) falls_only) (does again P (set r (read q)) g s w)
        (runs go helps p helper scope depth (lowered (set r (read q)) x kept) t w) }
{}

/// The law that an operator on integers gives in both the same bits, or the source comes to an undefined act. It does nothing.
pub fn operators_are_lowered()
    ensures { (P : Program) (function : List ℕ → ℕ) (signature : List ℕ → SourceType) (own : Own) (scope : Scope) (F : Map) (kept : Keeping) (g : Registers)
        (s : State) (t : c.State) (w : World) → Between (fixed_of P function signature) own scope F kept g s t.memory → Below own kept
        → (again : Again) (go helps : mean.Again) (p : mean.Program) (helper : Bool) (depth : ℕ) (x : Inside)
        → (r q v : Register) (o : Arith) (k : Kind) (f h : Kind → Bool) → r < own.bound → promoted k ≡ k → kept q ≡ integer_of f → kept v ≡ integer_of h
        → Simulates (Ends (fixed_of P function signature) own scope F (keep kept r (result_kept o k)) falls_only) (does again P (set r (operate o k q v)) g s w)
        (runs go helps p helper scope depth (lowered (set r (operate o k q v)) x kept) t w) }
{}

/// The law that a scalar that is stored stands in both where it was stored, and nothing else has changed. It does nothing.
pub fn stores_are_lowered()
    ensures { (P : Program) (function : List ℕ → ℕ) (signature : List ℕ → SourceType) (own : Own) (scope : Scope) (F : Map) (kept : Keeping) (g : Registers)
        (s : State) (t : c.State) (w : World) → Between (fixed_of P function signature) own scope F kept g s t.memory → Below own kept
        → (again : Again) (go helps : mean.Again) (p : mean.Program) (helper : Bool) (depth : ℕ) (x : Inside)
        → (r q : Register) (y : SourceType) (u : Sort) (z : Kept) (a : Sort) → kept r ≡ holds (address y) → sort_of y ≡ Some u → kept q ≡ z
        → local_kept z ≡ Some a → Takes u z
        → Simulates (Ends (fixed_of P function signature) own scope F kept falls_only) (does again P (act (store r q)) g s w)
        (runs go helps p helper scope depth (lowered (act (store r q)) x kept) t w) }
{}
