//! The body of a function that is declared already (8.3).

ghost use Rattle.std.specs.Prelude.{◌≡◌, IfOk, OnOk};
ghost use Rattle.cf_elab.specs.Answer.{Made as Done};
ghost use Rattle.cf_elab_env.specs.Answered.{Agrees};
ghost use Rattle.cf_elab_env.specs.Holds.{Grows, IsEntry, IsHand};
ghost use Rattle.cf_elab_unit.specs.Body.Shut as body_of;
ghost use Rattle.cf_elab_shape.specs.Shapes.Holds.{AreObjects};
ghost use Rattle.cf_elab_unit.specs.Definitions.Shut as shut;

use crate::body::{block, statements};
use crate::definitions::entries::entry_at;
use crate::definitions::functions::{core_function, head_of};
use crate::definitions::hands::{hand_of, objects_at, result_of};
use crate::definitions::parameters::declare_parameters;
use cf_base::{Boxed, Memory};
use cf_core::Core;
use cf_elab_env::{Env, FunctionEntry, Hand, Stop};
use cf_elab_shape::Parameter;
use cf_types::TyId;
use cf_unit::Stmt;

/// The function of this number with the statements of its body and the byte place of its `{`, which the file defines from here on.
#[tactic(auto, using(crate::proofs::DefinitionsLaws::BodyLaws::at_laws))]
pub(crate) fn define_function(
    body: &[Stmt],
    at: u32,
    parameters: &[Parameter],
    number: u32,
    env: &mut Env,
) -> Result<(), Stop>
    requires built { body_of.AreBuilt body.now }
    requires objects { AreObjects env.old.types parameters.now }
    ensures made { Agrees (shut.define_at number parameters.now at body.now env.old) result env.new }
    ensures grows { OnOk result (Grows env.old.types env.new.types) }
{
    match entry_at(env, number)? {
        None => Ok(()),
        Some(entry) => {
            define(body, at, parameters, &entry, env)?;
            Ok(())
        }
    }
}

/// The same by its entry.
#[tactic(auto, using(crate::proofs::DefinitionsLaws::BodyLaws::define_laws))]
fn define(
    body: &[Stmt],
    at: u32,
    parameters: &[Parameter],
    entry: &FunctionEntry,
    env: &mut Env,
) -> Result<(), Stop>
    requires built { body_of.AreBuilt body.now }
    requires objects { AreObjects env.old.types parameters.now }
    requires known { IsEntry env.old.types entry.now }
    ensures made { Agrees (shut.define entry.now parameters.now at body.now env.old) result env.new }
    ensures grows { OnOk result (Grows env.old.types env.new.types) }
{
    let returned = result_of(env, entry);
    let hand = hand_of(env.alloc(), entry, returned, parameters)?;
    let before = begin_body(env, hand, parameters)?;
    let node = in_braces(body, at, env)?;
    end_body(env, before, entry, returned, parameters, node)?;
    Ok(())
}

/// Before the statements of a body: its function is at hand, and its parameters are declared in a scope. Gives the hand before.
#[tactic(auto, using(crate::proofs::DefinitionsLaws::BodyLaws::begin_laws))]
fn begin_body(env: &mut Env, hand: Hand, parameters: &[Parameter]) -> Result<Hand, Stop>
    requires objects { AreObjects env.old.types parameters.now }
    requires known { IsHand env.old.types hand }
    ensures made { Agrees (shut.begin_body hand parameters.now env.old) result env.new }
    ensures known { IfOk result (λ h. IsHand env.new.types h) }
    ensures types { OnOk result (env.new.types ≡ env.old.types) }
{
    let before = env.replace_hand(hand);
    env.enter_scope()?;
    declare_parameters(env, 0, parameters)?;
    Ok(before)
}

/// The statements of a body as one.
#[tactic(auto, using(crate::proofs::DefinitionsLaws::BodyLaws::braces_laws))]
fn in_braces(body: &[Stmt], at: u32, env: &mut Env) -> Result<Boxed<Core>, Stop>
    requires { body_of.AreBuilt body.now }
    ensures made { Agrees (shut.body_of at body.now env.old) result env.new }
    ensures grows { OnOk result (Grows env.old.types env.new.types) }
{
    let made = statements(body, env)?;
    let block = block(env.alloc(), at, made)?;
    Ok(block.into_node())
}

/// Behind the statements of a body: the function is one of the file's, and what was at hand before is so again.
#[tactic(auto, using(crate::proofs::DefinitionsLaws::BodyLaws::end_laws))]
fn end_body(
    env: &mut Env,
    before: Hand,
    entry: &FunctionEntry,
    returned: TyId,
    parameters: &[Parameter],
    body: Boxed<Core>,
) -> Result<(), Memory>
    requires { IsHand env.old.types before }
    ensures made { OnOk result (shut.end_body before entry.now returned parameters.now body env.old ≡ Done tt env.new) }
    ensures types { OnOk result (env.new.types ≡ env.old.types) }
{
    env.leave_scope();
    let hand = env.replace_hand(before);
    let head = head_of(env.alloc(), entry, parameters, objects_at(&hand))?;
    let function = core_function(body, head, returned);
    env.add_function(function)?;
    Ok(())
}
