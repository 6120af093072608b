//! Calls beside their C, begun: the values of arguments, and how their objects come into the blocks of the parameters. As definitions and laws; nothing here runs.

ghost use Rattle.std.specs.Prelude.{ℕ, List};
ghost use Rattle.cf_core.specs.Run.{State};
ghost use Rattle.cc_whole_memory.specs.declared.value.Value.{Value};
ghost use Rattle.cc_whole_memory.specs.Blocks.{Memory};
ghost use Rattle.cc_whole_mean.specs.Scope.{Scope};
ghost use Rattle.cf_lower_relate.specs.Map.{Fixed, Map};
ghost use Rattle.cf_lower_relate.specs.Relation.{Rel};
ghost use Rattle.cf_lower_calls.specs.Evaluated.Arguments.{Differ, AllPassed, Enters, InTheirLocals, Evaluates};

/// The law that the C's arguments have the values that the objects of the arguments hold (5.2.2). It does nothing.
pub fn arguments_are_evaluated()
    ensures { (K : Fixed) (F : Map) (scope : Scope) (s : State) (m : Memory) → Rel K F s m → (is os : List ℕ) → InTheirLocals K F scope s is os
        → Evaluates K F scope s m is os }
{}

/// The law that where the parameters' blocks are born with these values, the objects of the arguments stand in them, and all others where they did (5.2.2). It does
/// nothing.
pub fn arguments_enter()
    ensures { (K : Fixed) (F : Map) (s : State) (m : Memory) → Rel K F s m → (os : List ℕ) (cs : List Value) → Differ os → AllPassed K F s os cs
        → Enters K F s m os cs }
{}
