ghost use Rattle.std.specs.Prelude.{OnOk};
ghost use Rattle.cf_elab_env.specs.Answered.{Agrees};
ghost use Rattle.cf_elab_env.specs.Holds.{Known, Grows};
ghost use Rattle.cf_elab_statement.specs.Shut as shut;

use crate::labels::{check_labels, labelled};
use cf_base::{Boxed, Items, Kind};
use cf_core::Core;
use cf_elab_arith::{broken, kind_at};
use cf_elab_env::{Env, Stop, Value};
use cf_elab_fit::{plain, to_kind};
use cf_elab_made::Made;

/// `switch`, behind its operand and its statements: the operand is an integer or an enumeration, K13, which is promoted, and the labels are values
/// of that type (6.4.2).
#[tactic(auto, using(crate::proofs::SwitchLaws::switch_laws))]
pub fn switch_statement(
    env: &mut Env,
    at: u32,
    value: Value,
    statements: Items<Made>,
) -> Result<Made, Stop>
    requires { Known env.old.types value }
    ensures made { Agrees (shut.switch_behind at value statements env.old) result env.new }
    ensures grows { OnOk result (Grows env.old.types env.new.types) }
{
    env.holds();
    let operand = plain(env, value)?;
    let made = switch_plain(env, at, operand, statements)?;
    Ok(made)
}

/// The same with a plain operand.
#[tactic(auto, using(crate::proofs::SwitchLaws::plain_laws))]
fn switch_plain(
    env: &mut Env,
    at: u32,
    operand: Value,
    statements: Items<Made>,
) -> Result<Made, Stop>
    requires { Known env.old.types operand }
    ensures made { Agrees (shut.switch_plain at operand statements env.old) result env.new }
    ensures grows { OnOk result (Grows env.old.types env.new.types) }
{
    match kind_at(env, operand.ty()) {
        Some(kind) => {
            let made = switch_on(env, at, kind, operand, statements)?;
            Ok(made)
        }
        None => Err(Stop::Broken(broken(13, at))),
    }
}

/// The same where the operand is promoted to this type.
#[tactic(auto, using(crate::proofs::SwitchLaws::kind_laws))]
fn switch_on(
    env: &mut Env,
    at: u32,
    kind: Kind,
    operand: Value,
    statements: Items<Made>,
) -> Result<Made, Stop>
    requires { Known env.old.types operand }
    ensures made { Agrees (shut.switch_on at kind operand statements env.old) result env.new }
    ensures grows { OnOk result (Grows env.old.types env.new.types) }
{
    let operand = to_kind(env, kind, operand)?;
    check_labels(env, kind, statements.as_slice())?;
    let operand = operand.into_node();
    let body = labelled(env.alloc(), kind, statements)?;
    let node = Boxed::new(env.alloc(), Core::Switch { at, operand, body })?;
    Ok(Made::new(at, node))
}
