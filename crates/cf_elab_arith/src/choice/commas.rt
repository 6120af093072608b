ghost use Rattle.std.specs.Prelude.{◌≡◌, IfOk, All, map};
ghost use Rattle.cf_elab.specs.Operand.{Value as Elaborated};
ghost use Rattle.cf_elab_arith.specs.Choice.Shut as shut;
ghost use Rattle.cf_elab_env.specs.Answered.{Agrees};
ghost use Rattle.cf_elab_env.specs.Holds.{Known};

use cf_base::{Boxed, Broken, Items, Memory, Rule};
use cf_core::Core;
use cf_elab_env::{Env, Stop, Value};
use std::alloc::Global;

/// `a, b`: each in order, and the last is the value (5.18). There is at least one, else K18.
#[tactic(auto, using(crate::proofs::ChoiceLaws::Sequences::sequence_laws))]
pub fn sequence(env: &Env, at: u32, values: Items<Value>) -> Result<Value, Stop>
    requires { All (λ v. Known env.now.types v) values }
    ensures made { Agrees (shut.sequence at values env.now) result env.now }
    ensures known { IfOk result (λ v. Known env.now.types v) }
{
    env.holds();
    match values.as_slice().last() {
        Some(last) => {
            let ty = last.ty();
            let is_lvalue = last.is_lvalue();
            let operands = nodes(env.alloc(), values)?;
            let node = Boxed::new(env.alloc(), Core::Comma { at, operands })?;
            Ok(Value::computed(at, node, ty).with_lvalue(is_lvalue))
        }
        None => Err(Stop::Broken(Broken {
            rule: Rule::new(18),
            at,
        })),
    }
}

/// The nodes of values, in order.
fn nodes(alloc: Global, values: Items<Value>) -> Result<Items<Core>, Memory>
    ensures { IfOk result (λ nodes. nodes ≡ map (λ (v : Elaborated). v.node) values) }
{
    let nodes: Vec<Core> = values
        .into_vec()
        .into_iter()
        .map(|value| value.into_node().into_inner())
        .collect(alloc)?;
    Ok(Items::from_vec(nodes))
}
