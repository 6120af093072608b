//! Loops, and the begin of `if` (6.4, 6.5).

ghost use Rattle.std.specs.Prelude.{OnOk, IfOk};
ghost use Rattle.cf_elab_env.specs.Answered.{Agrees};
ghost use Rattle.cf_elab_env.specs.Holds.{Grows, Known};
ghost use Rattle.cf_elab_declaration.specs.Enums.ExprShut as expression;
ghost use Rattle.cf_elab_statement.specs.Parts.{KnownIf};
ghost use Rattle.cf_elab_unit.specs.Body.Shut as shut;

use crate::body::forms::statement;
use crate::body::values::maybe_value;
use cf_base::Boxed;
use cf_core::LoopForm;
use cf_elab_declaration::evaluated;
use cf_elab_env::{Env, Stop, Value};
use cf_elab_made::Made;
use cf_elab_statement::{begin_loop, end_loop, for_statement, loop_statement};
use cf_syntax::Expr;
use cf_unit::Stmt;

/// The body of a loop, in which `break` and `continue` may stand.
#[cycle(statements)]
#[tactic(auto, using(crate::proofs::BodyLaws::Parts::loop_is, cf_elab_env::proofs::Growth::grown_laws))]
fn in_loop(body: &Boxed<Stmt>, env: &mut Env) -> Result<Made, Stop>
    requires { shut.IsBuilt body.now }
    ensures made { Agrees (shut.in_loop body.now env.old) result env.new }
    ensures grows { OnOk result (Grows env.old.types env.new.types) }
{
    let before = begin_loop(env);
    let made = statement(body.get(), env)?;
    end_loop(env, before);
    Ok(made)
}

/// `while` (6.5.1)
#[cycle(statements)]
#[tactic(auto, using(crate::proofs::BodyLaws::Parts::while_is, crate::proofs::BodyLaws::BuiltForms::while_condition, crate::proofs::BodyLaws::BuiltForms::while_body, cf_elab_env::proofs::Growth::grown_laws))]
pub(crate) fn while_loop(
    body: &Boxed<Stmt>,
    at: u32,
    e: &Boxed<Expr>,
    env: &mut Env,
) -> Result<Made, Stop>
    requires { shut.IsBuilt (Stmt.While at e.now body.now) }
    ensures made { Agrees (shut.statement (Stmt.While at e.now body.now) env.old) result env.new }
    ensures grows { OnOk result (Grows env.old.types env.new.types) }
{
    let value = evaluated(e.get(), env)?;
    let body = in_loop(body, env)?;
    let made = loop_statement(env, at, LoopForm::While, value, body)?;
    Ok(made)
}

/// `do` (6.5.2)
#[cycle(statements)]
#[tactic(auto, using(crate::proofs::BodyLaws::Parts::do_is, crate::proofs::BodyLaws::BuiltForms::do_condition, crate::proofs::BodyLaws::BuiltForms::do_body, cf_elab_env::proofs::Growth::grown_laws))]
pub(crate) fn do_loop(
    body: &Boxed<Stmt>,
    at: u32,
    e: &Boxed<Expr>,
    env: &mut Env,
) -> Result<Made, Stop>
    requires { shut.IsBuilt (Stmt.Do at body.now e.now) }
    ensures made { Agrees (shut.statement (Stmt.Do at body.now e.now) env.old) result env.new }
    ensures grows { OnOk result (Grows env.old.types env.new.types) }
{
    let body = in_loop(body, env)?;
    let value = evaluated(e.get(), env)?;
    let made = loop_statement(env, at, LoopForm::Do, value, body)?;
    Ok(made)
}

/// `for`, whose first part is elaborated (6.5.3).
#[cycle(statements)]
#[tactic(auto, using(crate::proofs::BodyLaws::Parts::for_rest_is, cf_elab_env::proofs::Growth::grown_laws))]
pub(crate) fn for_loop(
    body: &Boxed<Stmt>,
    at: u32,
    first: Made,
    e: &Option<Boxed<Expr>>,
    step: &Option<Boxed<Expr>>,
    env: &mut Env,
) -> Result<Made, Stop>
    requires condition { shut.HasBuilt e.now }
    requires step { shut.HasBuilt step.now }
    requires body { shut.IsBuilt body.now }
    ensures made { Agrees (shut.for_rest at first e.now step.now body.now env.old) result env.new }
    ensures grows { OnOk result (Grows env.old.types env.new.types) }
{
    let value = maybe_value(e, env)?;
    let made = behind_condition(body, at, first, value, step, env)?;
    Ok(made)
}

/// The same with its condition elaborated too.
#[cycle(statements)]
#[tactic(auto, using(crate::proofs::BodyLaws::Parts::for_behind_is, crate::proofs::BodyLaws::MaybeLaws::known_if_laws, cf_elab_env::proofs::Growth::grown_laws))]
fn behind_condition(
    body: &Boxed<Stmt>,
    at: u32,
    first: Made,
    value: Option<Value>,
    step: &Option<Boxed<Expr>>,
    env: &mut Env,
) -> Result<Made, Stop>
    requires known { KnownIf env.old.types value }
    requires step { shut.HasBuilt step.now }
    requires body { shut.IsBuilt body.now }
    ensures made { Agrees (shut.for_behind at first value step.now body.now env.old) result env.new }
    ensures grows { OnOk result (Grows env.old.types env.new.types) }
{
    let step = maybe_value(step, env)?;
    let body = in_loop(body, env)?;
    let made = for_statement(env, at, first, value, step, body)?;
    Ok(made)
}

/// The condition of an `if`, and the statement where it holds (6.4.1).
#[cycle(statements)]
#[tactic(auto, using(crate::proofs::BodyLaws::Parts::chosen_is, cf_elab_env::proofs::Growth::grown_laws))]
pub(crate) fn chosen(
    yes: &Boxed<Stmt>,
    e: &Boxed<Expr>,
    env: &mut Env,
) -> Result<(Value, Made), Stop>
    requires condition { expression.IsBuilt e.now }
    requires built { shut.IsBuilt yes.now }
    ensures made { Agrees (shut.chosen e.now yes.now env.old) result env.new }
    ensures known { IfOk result (λ vm. Known env.new.types vm.0) }
    ensures grows { OnOk result (Grows env.old.types env.new.types) }
{
    let value = evaluated(e.get(), env)?;
    let made = statement(yes.get(), env)?;
    Ok((value, made))
}
