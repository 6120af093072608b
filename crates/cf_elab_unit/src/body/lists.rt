//! Statements that may be several, or none.

ghost use Rattle.std.specs.Prelude.{OnOk};
ghost use Rattle.cf_elab_env.specs.Answered.{Agrees};
ghost use Rattle.cf_elab_env.specs.Holds.{Grows, Known};
ghost use Rattle.cf_elab_unit.specs.Body.Shut as shut;

use crate::body::forms::statement;
use cf_base::{Boxed, Items};
use cf_elab_declaration::evaluated;
use cf_elab_env::{Env, Stop, Value};
use cf_elab_made::Made;
use cf_elab_statement as steps;
use cf_syntax::Expr;
use cf_unit::Stmt;

/// What several statements are, in order.
#[cycle(statements)]
#[tactic(auto, using(cf_elab_env::proofs::Growth::grown_laws))]
pub fn statements(list: &[Stmt], env: &mut Env) -> Result<Items<Made>, Stop>
    requires { shut.AreBuilt list.now }
    ensures made { Agrees (shut.statements list.now env.old) result env.new }
    ensures grows { OnOk result (Grows env.old.types env.new.types) }
{
    let mut found = Items::new(env.alloc());
    for s in list {
        found.push(statement(s, env)?)?;
    }
    Ok(found)
}

/// The same in a scope of their own (6.3).
#[cycle(statements)]
#[tactic(auto, using(crate::proofs::BodyLaws::Parts::scope_is, cf_elab_env::proofs::Growth::grown_laws))]
fn in_scope(list: &[Stmt], env: &mut Env) -> Result<Items<Made>, Stop>
    requires { shut.AreBuilt list.now }
    ensures made { Agrees (shut.in_scope list.now env.old) result env.new }
    ensures grows { OnOk result (Grows env.old.types env.new.types) }
{
    env.enter_scope()?;
    let made = statements(list, env)?;
    env.leave_scope();
    Ok(made)
}

/// The same in the braces of a switch, where `break` may stand among them.
#[cycle(statements)]
#[tactic(auto, using(crate::proofs::BodyLaws::Parts::braces_is, cf_elab_env::proofs::Growth::grown_laws))]
fn in_switch(list: &[Stmt], env: &mut Env) -> Result<Items<Made>, Stop>
    requires { shut.AreBuilt list.now }
    ensures made { Agrees (shut.in_switch list.now env.old) result env.new }
    ensures grows { OnOk result (Grows env.old.types env.new.types) }
{
    let before = steps::begin_switch(env);
    let made = in_scope(list, env)?;
    steps::end_switch(env, before);
    Ok(made)
}

/// Statements in braces (6.3).
#[cycle(statements)]
#[tactic(auto, using(crate::proofs::BodyLaws::Parts::block_is, crate::proofs::BodyLaws::BuiltForms::block_inside))]
pub(crate) fn block(list: &Items<Stmt>, at: u32, env: &mut Env) -> Result<Made, Stop>
    requires { shut.IsBuilt (Stmt.Block at list.now) }
    ensures made { Agrees (shut.statement (Stmt.Block at list.now) env.old) result env.new }
    ensures grows { OnOk result (Grows env.old.types env.new.types) }
{
    let made = in_scope(list.as_slice(), env)?;
    let block = steps::block(env.alloc(), at, made)?;
    Ok(block)
}

/// `switch` (6.4.2)
#[cycle(statements)]
#[tactic(auto, using(crate::proofs::BodyLaws::Parts::switch_is, crate::proofs::BodyLaws::BuiltForms::switch_operand, crate::proofs::BodyLaws::BuiltForms::switch_inside, cf_elab_env::proofs::Growth::grown_laws))]
pub(crate) fn switch(
    list: &Items<Stmt>,
    at: u32,
    e: &Boxed<Expr>,
    env: &mut Env,
) -> Result<Made, Stop>
    requires { shut.IsBuilt (Stmt.Switch at e.now list.now) }
    ensures made { Agrees (shut.statement (Stmt.Switch at e.now list.now) env.old) result env.new }
    ensures grows { OnOk result (Grows env.old.types env.new.types) }
{
    let value = evaluated(e.get(), env)?;
    let made = in_switch(list.as_slice(), env)?;
    let made = steps::switch_statement(env, at, value, made)?;
    Ok(made)
}

/// A statement that may be left out.
#[cycle(statements)]
#[tactic(auto, using(crate::proofs::BodyLaws::Parts::maybe_laws, crate::proofs::BodyLaws::BuiltForms::there_built, cf_elab_env::proofs::Growth::grown_laws))]
fn maybe(s: &Option<Boxed<Stmt>>, env: &mut Env) -> Result<Option<Made>, Stop>
    requires { shut.MaybeBuilt s.now }
    ensures made { Agrees (shut.maybe_statement s.now env.old) result env.new }
    ensures grows { OnOk result (Grows env.old.types env.new.types) }
{
    match s {
        None => Ok(None),
        Some(s) => {
            let made = statement(s.get(), env)?;
            Ok(Some(made))
        }
    }
}

/// `if`, behind its condition and the statement where that holds (6.4.1).
#[cycle(statements)]
#[tactic(auto, using(crate::proofs::BodyLaws::Parts::otherwise_is, cf_elab_env::proofs::Growth::grown_laws))]
pub(crate) fn otherwise(
    no: &Option<Boxed<Stmt>>,
    at: u32,
    chosen: (Value, Made),
    env: &mut Env,
) -> Result<Made, Stop>
    requires known { Known env.old.types chosen.0 }
    requires built { shut.MaybeBuilt no.now }
    ensures made { Agrees (shut.otherwise at chosen no.now env.old) result env.new }
    ensures grows { OnOk result (Grows env.old.types env.new.types) }
{
    let (value, yes) = chosen;
    let no = maybe(no, env)?;
    let made = steps::if_statement(env, at, value, yes, no)?;
    Ok(made)
}
