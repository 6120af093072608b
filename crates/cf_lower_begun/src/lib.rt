//! What stands in both programs as they begin, before constant initialisers take effect. As definitions and laws; nothing here runs.
#![tactic(auto)]

ghost use Rattle.std.specs.Prelude.{◌≡◌, ℕ, List, Some, slice_get};
ghost use Rattle.cf_core.specs.Types.{Name, SourceType};
ghost use Rattle.cf_core.specs.Calls.{Program};
ghost use Rattle.cf_core.specs.Program.{first_state};
ghost use Rattle.cc_whole.specs.declared.unit.CVariable.{CVariable};
ghost use Rattle.cc_whole_memory.specs.Blocks.{no_memory};
ghost use Rattle.cc_whole_mean.specs.Scope.{Scope};
ghost use Rattle.cc_whole_mean.specs.Start.{laid_out};
ghost use Rattle.cf_lower_relate.specs.Map.{Fixed, Map};
ghost use Rattle.cf_lower_relate.specs.Relation.{Rel};
ghost use Rattle.cf_lower_steps.specs.Lowering.{fixed_of};
ghost use Rattle.cf_lower_begun.specs.Begun.{static_map, StaticsFirst, HasText, TextVariable};

/// The law that static objects stand in the variables of their numbers, zeroed, where these are the first variables and have no initialiser (3.4, 8.4). It does nothing.
pub fn static_objects_begin()
    ensures { (P : Program) (function : Name → ℕ) (signature : Name → SourceType) (vs : List CVariable) (names : Scope) (depth : ℕ) → StaticsFirst P vs
        → Rel (fixed_of P function signature) (static_map P) (first_state P depth) (laid_out names vs no_memory) }
{}

/// The law that the variable of a literal has its bytes, and 0 behind (2.5.4). It does nothing.
pub fn literals_begin()
    ensures { (K : Fixed) (F : Map) (vs : List CVariable) (names : Scope) (i : ℕ) (v : CVariable) (bytes : List ℕ) → slice_get vs i ≡ Some v → TextVariable bytes v
        → HasText K F bytes ((laid_out names vs no_memory).block i) }
{}
