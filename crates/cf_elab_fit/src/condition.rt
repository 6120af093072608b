ghost use Rattle.std.specs.Prelude.{◌≡◌, IfOk, OnOk};
ghost use Rattle.cf_elab.specs.Operand as operand;
ghost use Rattle.cf_elab_env.specs.Answered.{Agrees};
ghost use Rattle.cf_elab_env.specs.Holds.{Known, Grows};
ghost use Rattle.cf_elab_env.specs.Seen.{sort_seen};
ghost use Rattle.cf_elab_fit.specs.Shut as shut;

use crate::reading::plain;
use cf_base::{Broken, Rule};
use cf_elab_env::{Env, Sort, Stop, Value};

/// Truth: a value of an arithmetic or pointer type; else the rule is broken at the place (6.4.1).
#[tactic(auto, using(crate::proofs::TruthLaws::truth_laws))]
pub fn truth(env: &mut Env, rule: Rule, at: u32, value: Value) -> Result<Value, Stop>
    requires { Known env.old.types value }
    ensures standard { Agrees (shut.truth rule at value env.old) result env.new }
    ensures user { Agrees (shut.user_truth rule at value env.old) result env.new }
    ensures known { IfOk result (λ v. Known env.new.types v) }
    ensures grows { OnOk result (Grows env.old.types env.new.types) }
{
    let _no_class = env.sort_of(value.ty());
    let found = plain(env, value)?;
    if is_testable(env.sort_of(found.ty())) {
        Ok(found)
    } else {
        Err(Stop::Broken(Broken { rule, at }))
    }
}

/// Whether a condition may have the type.
fn is_testable(sort: Sort) -> bool
    ensures { result ≡ operand.is_testable (sort_seen sort) }
{
    matches!(
        sort,
        Sort::Integral(_)
            | Sort::Enumeral(_)
            | Sort::ObjectPointer(_)
            | Sort::VoidPointer
            | Sort::FunctionPointer(_)
    )
}
