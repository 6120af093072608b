ghost use Rattle.std.specs.Prelude.{◌≡◌, OnOk};
ghost use Rattle.cf_elab.specs.Answer.{Made as Elaborated};
ghost use Rattle.cf_elab.specs.Operand as operand;
ghost use Rattle.cf_elab.specs.Statement as row;
ghost use Rattle.cf_elab_env.specs.Answered.{Agrees};
ghost use Rattle.cf_elab_env.specs.Holds.{Known, Grows};
ghost use Rattle.cf_elab_env.specs.Seen.{sort_seen};
ghost use Rattle.cf_elab_statement.specs.Parts as parts;
ghost use Rattle.cf_elab_statement.specs.Shut as shut;

use cf_base::Boxed;
use cf_core::Core;
use cf_elab_arith::broken;
use cf_elab_env::{BodyKind, Env, Sort, Stop, Value};
use cf_elab_initial::{Keeping, initial};
use cf_elab_made::Made;

/// Which jumps may stand at a place (6.6).
#[derive(Clone, Copy, Debug, PartialEq, Eq)]
pub struct Jumps {
    pub breaks: bool,
    pub continues: bool,
}

/// Before the body of a loop: `break` and `continue` may stand in it. Gives what could stand before.
#[tactic(auto, using(crate::proofs::JumpLaws::loop_begun))]
pub fn begin_loop(env: &mut Env) -> Jumps
    ensures made { shut.begin_loop env.old ≡ Elaborated result env.new }
    ensures types { env.new.types ≡ env.old.types }
{
    let before = Jumps {
        breaks: env.breaks(),
        continues: env.continues(),
    };
    env.set_jumps(true, true);
    before
}

/// Behind the body of a loop, with what could stand before it.
#[tactic(auto, using(crate::proofs::JumpLaws::loop_ended))]
pub fn end_loop(env: &mut Env, before: Jumps)
    ensures made { shut.end_loop before env.old ≡ Elaborated tt env.new }
    ensures types { env.new.types ≡ env.old.types }
{
    env.set_jumps(before.breaks, before.continues);
}

/// Before the statements of a switch: `break` may stand among them. Gives whether it could before.
#[tactic(auto, using(crate::proofs::JumpLaws::switch_begun))]
pub fn begin_switch(env: &mut Env) -> bool
    ensures made { shut.begin_switch env.old ≡ Elaborated result env.new }
    ensures types { env.new.types ≡ env.old.types }
{
    let before = env.breaks();
    env.set_breaks(true);
    before
}

/// Behind the statements of a switch, with whether `break` could stand before.
#[tactic(auto, using(crate::proofs::JumpLaws::switch_ended))]
pub fn end_switch(env: &mut Env, before: bool)
    ensures made { shut.end_switch before env.old ≡ Elaborated tt env.new }
    ensures types { env.new.types ≡ env.old.types }
{
    env.set_breaks(before);
}

/// `break`, in a loop or a switch; else K21 (6.6.1).
#[tactic(auto, using(crate::proofs::JumpLaws::break_laws))]
pub fn break_statement(env: &Env, at: u32) -> Result<Made, Stop>
    ensures { Agrees (shut.break_row at env.now) result env.now }
{
    if env.breaks() {
        let node = Boxed::new(env.alloc(), Core::Break { at })?;
        Ok(Made::new(at, node))
    } else {
        Err(Stop::Broken(broken(21, at)))
    }
}

/// `continue`, in a loop; else K21 (6.6.2).
#[tactic(auto, using(crate::proofs::JumpLaws::continue_laws))]
pub fn continue_statement(env: &Env, at: u32) -> Result<Made, Stop>
    ensures { Agrees (shut.continue_row at env.now) result env.now }
{
    if env.continues() {
        let node = Boxed::new(env.alloc(), Core::Continue { at })?;
        Ok(Made::new(at, node))
    } else {
        Err(Stop::Broken(broken(21, at)))
    }
}

/// `return`, behind its value. A value where the function has no result, and none where it has one, but for `main`, is K22 (6.6.3).
#[tactic(auto, using(crate::proofs::JumpLaws::return_laws))]
pub fn return_statement(env: &mut Env, at: u32, value: Option<Value>) -> Result<Made, Stop>
    requires { parts.KnownIf env.old.types value }
    ensures made { Agrees (shut.return_behind at value env.old) result env.new }
    ensures grows { OnOk result (Grows env.old.types env.new.types) }
{
    let value = returned(env, at, value)?;
    let node = Boxed::new(env.alloc(), Core::Return { at, value })?;
    Ok(Made::new(at, node))
}

/// What the result takes (6.6.3).
#[tactic(auto, using(crate::proofs::JumpLaws::returned_laws))]
fn returned(env: &mut Env, at: u32, value: Option<Value>) -> Result<Option<Boxed<Core>>, Stop>
    requires { parts.KnownIf env.old.types value }
    ensures made { Agrees (shut.returned at value env.old) result env.new }
    ensures grows { OnOk result (Grows env.old.types env.new.types) }
{
    match value {
        None => {
            if has_no_result(env) || is_main(env) {
                Ok(None)
            } else {
                Err(Stop::Broken(broken(22, at)))
            }
        }
        Some(value) => {
            let start = result_value(env, at, value)?;
            Ok(Some(start))
        }
    }
}

/// What the result takes of a value.
#[tactic(auto, using(crate::proofs::JumpLaws::result_laws))]
fn result_value(env: &mut Env, at: u32, value: Value) -> Result<Boxed<Core>, Stop>
    requires { Known env.old.types value }
    ensures made { Agrees (shut.result_value at value env.old) result env.new }
    ensures grows { OnOk result (Grows env.old.types env.new.types) }
{
    if has_no_result(env) {
        Err(Stop::Broken(broken(22, at)))
    } else {
        let start = initial(env, &Keeping::FullExpression, at, env.result(), value)?;
        Ok(start.into_node())
    }
}

/// Whether the result of the function at hand is void.
fn has_no_result(env: &Env) -> bool
    ensures { result ≡ parts.has_no_result env.now }
{
    is_void(env.sort_of(env.result()))
}

fn is_void(sort: Sort) -> bool
    ensures { result ≡ operand.is_void (sort_seen sort) }
{
    matches!(sort, Sort::Void)
}

/// Whether the function at hand is `main`.
fn is_main(env: &Env) -> bool
    ensures { result ≡ row.is_main_body env.now.hand.kind }
{
    matches!(env.body_kind(), BodyKind::Main)
}
