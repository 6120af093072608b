//! Laws of declared functions: functions that do nothing, and whose contracts are the laws.

ghost use Rattle.std.specs.Prelude.{◌≡◌, ℕ, [], All};
ghost use Rattle.cf_elab.specs.Env.{Env};
ghost use Rattle.cf_elab.specs.Functions.{Says};
ghost use Rattle.cf_elab_env.specs.Holds.{IsEnv};
ghost use Rattle.cf_elab_functions.specs.Seen.{NoDefault};
ghost use Rattle.cf_elab_functions.specs.Shut as shut;

/// Parameters without default arguments don't matter to the declaration of their function.
#[tactic(auto, using(crate::proofs::Without::without))]
pub fn parameters_do_not_matter()
    ensures { (int : ℕ) (d : Says) (env : Env) → IsEnv env → All NoDefault d.parameters → shut.declare_function int d env ≡ shut.declare_function int (record d { parameters = [] }) env }
{}
