ghost use Rattle.std.specs.Prelude.{◌≡◌, OnOk, IfOk};
ghost use Rattle.cf_elab.specs.Statement as row;
ghost use Rattle.cf_elab_env.specs.Answered.{Agrees};
ghost use Rattle.cf_elab_env.specs.Holds.{Known, Grows};
ghost use Rattle.cf_elab_statement.specs.Parts as parts;
ghost use Rattle.cf_elab_statement.specs.Shut as shut;

use cf_base::{Boxed, Items, Memory, Rule};
use cf_core::{Core, LoopForm};
use cf_elab_env::{Env, Stop, Value};
use cf_elab_fit::truth;
use cf_elab_made::Made;
use std::alloc::Global;

/// Truth of a condition at the keyword; else K13 (6.4.1).
#[tactic(auto, using(crate::proofs::LoopLaws::condition_laws))]
pub fn condition(env: &mut Env, at: u32, value: Value) -> Result<Boxed<Core>, Stop>
    requires { Known env.old.types value }
    ensures made { Agrees (shut.condition at value env.old) result env.new }
    ensures grows { OnOk result (Grows env.old.types env.new.types) }
{
    let tested = truth(env, Rule::new(13), at, value)?;
    Ok(tested.into_node())
}

/// `if`, behind its parts (6.4.1).
#[tactic(auto, using(crate::proofs::LoopLaws::if_laws))]
pub fn if_statement(
    env: &mut Env,
    at: u32,
    value: Value,
    yes: Made,
    no: Option<Made>,
) -> Result<Made, Stop>
    requires { Known env.old.types value }
    ensures made { Agrees (shut.if_behind at value yes no env.old) result env.new }
    ensures grows { OnOk result (Grows env.old.types env.new.types) }
{
    let condition = condition(env, at, value)?;
    let made = if_made(env.alloc(), at, condition, yes, no)?;
    Ok(made)
}

fn if_made(
    alloc: Global,
    at: u32,
    condition: Boxed<Core>,
    yes: Made,
    no: Option<Made>,
) -> Result<Made, Memory>
    ensures { IfOk result (λ m. m ≡ parts.if_made at condition yes no) }
{
    let first = yes.initialises();
    let yes = yes.into_node();
    let (no, second) = match no {
        None => (None, false),
        Some(no) => {
            let initialises = no.initialises();
            (Some(no.into_node()), initialises)
        }
    };
    let node = Boxed::new(
        alloc,
        Core::If {
            at,
            condition,
            yes,
            no,
        },
    )?;
    Ok(Made::new(at, node).with_initialises(first || second))
}

/// `while` and `do`, behind their parts (6.5.1, 6.5.2).
#[tactic(auto, using(crate::proofs::LoopLaws::loop_laws))]
pub fn loop_statement(
    env: &mut Env,
    at: u32,
    form: LoopForm,
    value: Value,
    body: Made,
) -> Result<Made, Stop>
    requires { Known env.old.types value }
    ensures made { Agrees (shut.loop_behind at form value body env.old) result env.new }
    ensures grows { OnOk result (Grows env.old.types env.new.types) }
{
    let condition = condition(env, at, value)?;
    let initialises = body.initialises();
    let node = Boxed::new(
        env.alloc(),
        Core::Loop {
            at,
            form,
            condition: Some(condition),
            step: None,
            body: body.into_node(),
        },
    )?;
    Ok(Made::new(at, node).with_initialises(initialises))
}

/// `for`, behind its parts. What it declares lives to the end of the block around it (6.5.3).
#[tactic(auto, using(crate::proofs::LoopLaws::for_laws))]
pub fn for_statement(
    env: &mut Env,
    at: u32,
    first: Made,
    value: Option<Value>,
    step: Option<Value>,
    body: Made,
) -> Result<Made, Stop>
    requires known { parts.KnownIf env.old.types value }
    requires step_known { parts.TypedIf env.old.types step }
    ensures made { Agrees (shut.for_behind at first value step body env.old) result env.new }
    ensures grows { OnOk result (Grows env.old.types env.new.types) }
{
    let condition = maybe_condition(env, at, value)?;
    env.holds();
    let step = step_node(env, step);
    let made = for_made(env.alloc(), at, first, condition, step, body)?;
    Ok(made)
}

#[tactic(auto, using(crate::proofs::LoopLaws::maybe_laws))]
fn maybe_condition(
    env: &mut Env,
    at: u32,
    value: Option<Value>,
) -> Result<Option<Boxed<Core>>, Stop>
    requires { parts.KnownIf env.old.types value }
    ensures made { Agrees (shut.maybe_condition at value env.old) result env.new }
    ensures grows { OnOk result (Grows env.old.types env.new.types) }
{
    match value {
        None => Ok(None),
        Some(value) => {
            let condition = condition(env, at, value)?;
            Ok(Some(condition))
        }
    }
}

/// The node of a step, whose value is not taken.
#[tactic(auto, using(crate::proofs::LoopLaws::step_laws))]
fn step_node(env: &Env, step: Option<Value>) -> Option<Boxed<Core>>
    requires { parts.TypedIf env.now.types step }
    ensures { result ≡ row.step_node env.now step }
{
    env.holds();
    match step {
        None => None,
        Some(value) => Some(value.into_node()),
    }
}

fn for_made(
    alloc: Global,
    at: u32,
    first: Made,
    condition: Option<Boxed<Core>>,
    step: Option<Boxed<Core>>,
    body: Made,
) -> Result<Made, Memory>
    ensures { IfOk result (λ m. m ≡ row.with_first at first body (row.loop_of at LoopForm.For condition step body)) }
{
    let initialises = first.initialises() || body.initialises();
    let body = body.into_node();
    let node = Core::Loop {
        at,
        form: LoopForm::For,
        condition,
        step,
        body,
    };
    let mut statements = Items::new(alloc);
    statements.push(first.into_node().into_inner())?;
    statements.push(node)?;
    let node = Boxed::new(alloc, Core::Sequence { at, statements })?;
    Ok(Made::new(at, node).with_initialises(initialises))
}
