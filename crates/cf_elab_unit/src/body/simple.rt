//! Statements without bodies.

ghost use Rattle.std.specs.Prelude.{OnOk};
ghost use Rattle.cf_elab_env.specs.Answered.{Agrees};
ghost use Rattle.cf_elab_env.specs.Holds.{Grows};
ghost use Rattle.cf_elab_unit.specs.Body.Shut as shut;

use crate::body::values::maybe_value;
use cf_base::Boxed;
use cf_elab_declaration::{declaration as declared, evaluated};
use cf_elab_env::{Env, Stop};
use cf_elab_made::Made;
use cf_elab_statement as steps;
use cf_syntax::Expr;
use cf_unit::{Declaration, Stmt};

/// A declaration (6.7).
#[tactic(auto, using(crate::proofs::BodyLaws::Parts::declaration_is, crate::proofs::BodyLaws::BuiltForms::declaration_inside, cf_elab_env::proofs::Growth::grown_laws))]
pub(crate) fn declaration(d: &Boxed<Declaration>, env: &mut Env) -> Result<Made, Stop>
    requires { shut.IsBuilt (Stmt.Declaration d.now) }
    ensures made { Agrees (shut.statement (Stmt.Declaration d.now) env.old) result env.new }
    ensures grows { OnOk result (Grows env.old.types env.new.types) }
{
    let reached = declared(d.get(), env)?;
    let made = steps::declaration(env.alloc(), d.get().at, reached)?;
    Ok(made)
}

/// `;` alone (6.2).
#[tactic(auto, using(crate::proofs::BodyLaws::Parts::empty_is, cf_elab_env::proofs::Growth::grown_laws))]
pub(crate) fn empty(at: u32, env: &mut Env) -> Result<Made, Stop>
    ensures made { Agrees (shut.statement (Stmt.Empty at) env.old) result env.new }
    ensures grows { OnOk result (Grows env.old.types env.new.types) }
{
    let made = steps::empty_statement(env.alloc(), at)?;
    Ok(made)
}

/// An expression as a statement (6.2).
#[tactic(auto, using(crate::proofs::BodyLaws::Parts::expression_is, crate::proofs::BodyLaws::BuiltForms::expression_inside, crate::proofs::BodyLaws::MaybeLaws::known_typed))]
pub(crate) fn expression(e: &Boxed<Expr>, at: u32, env: &mut Env) -> Result<Made, Stop>
    requires { shut.IsBuilt (Stmt.Expression at e.now) }
    ensures made { Agrees (shut.statement (Stmt.Expression at e.now) env.old) result env.new }
    ensures grows { OnOk result (Grows env.old.types env.new.types) }
{
    let value = evaluated(e.get(), env)?;
    let made = steps::expression_statement(env, at, value)?;
    Ok(made)
}

/// `case`, in the braces of a switch (6.1).
#[tactic(auto, using(crate::proofs::BodyLaws::Parts::case_is, crate::proofs::BodyLaws::BuiltForms::case_inside))]
pub(crate) fn case(e: &Boxed<Expr>, at: u32, env: &mut Env) -> Result<Made, Stop>
    requires { shut.IsBuilt (Stmt.Case at e.now) }
    ensures made { Agrees (shut.statement (Stmt.Case at e.now) env.old) result env.new }
    ensures grows { OnOk result (Grows env.old.types env.new.types) }
{
    let value = evaluated(e.get(), env)?;
    let made = steps::case_label(env.alloc(), at, value)?;
    Ok(made)
}

/// `default`, in the braces of a switch (6.1).
#[tactic(auto, using(crate::proofs::BodyLaws::Parts::default_is, cf_elab_env::proofs::Growth::grown_laws))]
pub(crate) fn default(at: u32, env: &mut Env) -> Result<Made, Stop>
    ensures made { Agrees (shut.statement (Stmt.Default at) env.old) result env.new }
    ensures grows { OnOk result (Grows env.old.types env.new.types) }
{
    let made = steps::default_label(env.alloc(), at)?;
    Ok(made)
}

/// `break` (6.6.1)
#[tactic(auto, using(crate::proofs::BodyLaws::Parts::break_is, cf_elab_env::proofs::Growth::grown_laws))]
pub(crate) fn break_from(at: u32, env: &mut Env) -> Result<Made, Stop>
    ensures made { Agrees (shut.statement (Stmt.Break at) env.old) result env.new }
    ensures grows { OnOk result (Grows env.old.types env.new.types) }
{
    let made = steps::break_statement(env, at)?;
    Ok(made)
}

/// `continue` (6.6.2)
#[tactic(auto, using(crate::proofs::BodyLaws::Parts::continue_is, cf_elab_env::proofs::Growth::grown_laws))]
pub(crate) fn continue_with(at: u32, env: &mut Env) -> Result<Made, Stop>
    ensures made { Agrees (shut.statement (Stmt.Continue at) env.old) result env.new }
    ensures grows { OnOk result (Grows env.old.types env.new.types) }
{
    let made = steps::continue_statement(env, at)?;
    Ok(made)
}

/// `return` (6.6.3)
#[tactic(auto, using(crate::proofs::BodyLaws::Parts::return_is, crate::proofs::BodyLaws::BuiltForms::return_inside, cf_elab_env::proofs::Growth::grown_laws))]
pub(crate) fn return_from(e: &Option<Boxed<Expr>>, at: u32, env: &mut Env) -> Result<Made, Stop>
    requires { shut.IsBuilt (Stmt.Return at e.now) }
    ensures made { Agrees (shut.statement (Stmt.Return at e.now) env.old) result env.new }
    ensures grows { OnOk result (Grows env.old.types env.new.types) }
{
    let value = maybe_value(e, env)?;
    let made = steps::return_statement(env, at, value)?;
    Ok(made)
}
