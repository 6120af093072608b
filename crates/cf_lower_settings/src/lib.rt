//! What sets static objects with constants before the program begins, in both programs. As definitions and laws; nothing here runs.
#![tactic(auto)]

ghost use Rattle.std.specs.Prelude.{◌≡◌, ℕ, Bool, true, List, [], map};
ghost use Rattle.cf_base.specs.World.{World};
ghost use Rattle.cf_base.specs.Agree.{Adds};
ghost use Rattle.cf_core.specs.Types.{Name, SourceType};
ghost use Rattle.cf_core.specs.Run.{State};
ghost use Rattle.cf_core.specs.Calls.{Program};
ghost use Rattle.cf_plain.specs.Plain.{Plains};
ghost use Rattle.cf_plain.specs.Acts.{no_registers};
ghost use Rattle.cf_plain.specs.Joined.{renamed_all};
ghost use Rattle.cf_plain.specs.Running as running;
ghost use Rattle.cc_whole.specs.Plain.{Statement, in_order};
ghost use Rattle.cc_whole_closed.proofs.Plains.{statement_with};
ghost use Rattle.cc_whole_mean.specs.Flow as c;
ghost use Rattle.cc_whole_mean.specs.Mean as mean;
ghost use Rattle.cc_whole_mean.specs.Scope.{Scope};
ghost use Rattle.cf_lower_relate.specs.Map.{Map};
ghost use Rattle.cf_lower.specs.Constants.{nothing_known, constant_code};
ghost use Rattle.cf_lower_steps.specs.Lowering.{fixed_of};
ghost use Rattle.cf_lower_steps.specs.Flows.{Simulates};
ghost use Rattle.cf_lower_turns.specs.Texts.{Texts};
ghost use Rattle.cf_lower_program.specs.Alike.{nothing_told, statements_alike};
ghost use Rattle.cf_lower_settings.specs.Named.{NamesGo};
ghost use Rattle.cf_lower_settings.specs.Set.{NamesStand, OwnObject, LiteralThere, Standing, Clear, SetAs};

/// The law that an initialiser which sets its own object, scalars to values of their types, does in the source what its stores do in the C (8.4). It does nothing.
pub fn initialisers_set_alike()
    ensures { (P : Program) (function : Name → ℕ) (signature : Name → SourceType) (texts : Texts) (F : Map) (names : Scope) → NamesStand P function signature F names
        → (q r : Name → Name) (again : running.Again) (c_again helps : mean.Again) (p : mean.Program) (inside : Bool) (depth : ℕ)
        → ((ss : List Statement) (u : c.State) (w : World) → Adds w.trace (mean.does_all c_again helps p inside (in_order ss) names depth u w))
        → (name : Name) (own : ℕ) → OwnObject F names r name own → (ss : Plains) (f : Name) (s : State) (u : c.State) (w : World)
        → statements_alike name ss f nothing_known nothing_told ≡ true → NamesGo q r (LiteralThere texts names r f s.frame.function) ss
        → Standing (fixed_of P function signature) texts F s u.memory → Clear (F.type own) [] own s
        → Simulates (λ a t flow. SetAs (fixed_of P function signature) texts F s u.memory t flow) (running.all again P (renamed_all q ss) no_registers s w)
        (mean.does_all c_again helps p inside (in_order (map (λ (x : Statement). statement_with x r) (constant_code [] ss f nothing_known))) names depth u w) }
{}
