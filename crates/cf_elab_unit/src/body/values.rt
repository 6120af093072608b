//! Expressions in statements.

ghost use Rattle.std.specs.Prelude.{IfOk, OnOk};
ghost use Rattle.cf_elab_env.specs.Answered.{Agrees};
ghost use Rattle.cf_elab_env.specs.Holds.{Grows};
ghost use Rattle.cf_elab_statement.specs.Parts.{KnownIf};
ghost use Rattle.cf_elab_unit.specs.Body.Shut as shut;

use cf_base::Boxed;
use cf_elab_declaration::evaluated;
use cf_elab_env::{Env, Stop, Value};
use cf_syntax::Expr;

/// The value of an expression that may be left out.
#[tactic(auto, using(crate::proofs::BodyLaws::MaybeLaws::value_laws))]
pub(crate) fn maybe_value(e: &Option<Boxed<Expr>>, env: &mut Env) -> Result<Option<Value>, Stop>
    requires { shut.HasBuilt e.now }
    ensures made { Agrees (shut.maybe_value e.now env.old) result env.new }
    ensures known { IfOk result (λ v. KnownIf env.new.types v) }
    ensures grows { OnOk result (Grows env.old.types env.new.types) }
{
    match e {
        None => Ok(None),
        Some(e) => {
            let value = evaluated(e.get(), env)?;
            Ok(Some(value))
        }
    }
}
