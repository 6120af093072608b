ghost use Rattle.std.specs.Prelude.{IfOk, OnOk};
ghost use Rattle.cf_elab_arith.specs.Arith.Shut as shut;
ghost use Rattle.cf_elab_env.specs.Answered.{Agrees};
ghost use Rattle.cf_elab_env.specs.Holds.{Known, Grows};

use crate::arith::integers::integer;
use cf_base::{Kind, Rule};
use cf_core::Core;
use cf_elab_env::{Env, Stop, Value};
use cf_elab_fit::{both_true, inverted, one_true, truth};

/// `!` of a value of an arithmetic or pointer type; else K18 (5.3).
#[tactic(auto, using(crate::proofs::ArithLaws::StepLaws::negation_laws))]
pub fn negation(env: &mut Env, at: u32, x: Value) -> Result<Value, Stop>
    requires { Known env.old.types x }
    ensures made { Agrees (shut.negation at x env.old) result env.new }
    ensures known { IfOk result (λ v. Known env.new.types v) }
    ensures grows { OnOk result (Grows env.old.types env.new.types) }
{
    let a = truth(env, Rule::new(18), at, x)?;
    let number = inverted(a.number());
    let node = Core::Not {
        at,
        operand: a.into_node(),
    };
    let value = integer(env, at, node, Kind::Int, number)?;
    Ok(value)
}

/// `&&`: a side that is no condition is K13 (5.14).
#[tactic(auto, using(crate::proofs::ArithLaws::StepLaws::conjunction_laws))]
pub fn conjunction(env: &mut Env, at: u32, x: Value, y: Value) -> Result<Value, Stop>
    requires x_known { Known env.old.types x }
    requires y_known { Known env.old.types y }
    ensures made { Agrees (shut.conjunction at x y env.old) result env.new }
    ensures known { IfOk result (λ v. Known env.new.types v) }
    ensures grows { OnOk result (Grows env.old.types env.new.types) }
{
    let a = truth(env, Rule::new(13), at, x)?;
    let b = truth(env, Rule::new(13), at, y)?;
    let number = both_true(a.number(), b.number());
    let node = Core::And {
        at,
        left: a.into_node(),
        right: b.into_node(),
    };
    let value = integer(env, at, node, Kind::Int, number)?;
    Ok(value)
}

/// `||`: a side that is no condition is K13 (5.15).
#[tactic(auto, using(crate::proofs::ArithLaws::StepLaws::disjunction_laws))]
pub fn disjunction(env: &mut Env, at: u32, x: Value, y: Value) -> Result<Value, Stop>
    requires x_known { Known env.old.types x }
    requires y_known { Known env.old.types y }
    ensures made { Agrees (shut.disjunction at x y env.old) result env.new }
    ensures known { IfOk result (λ v. Known env.new.types v) }
    ensures grows { OnOk result (Grows env.old.types env.new.types) }
{
    let a = truth(env, Rule::new(13), at, x)?;
    let b = truth(env, Rule::new(13), at, y)?;
    let number = one_true(a.number(), b.number());
    let node = Core::Or {
        at,
        left: a.into_node(),
        right: b.into_node(),
    };
    let value = integer(env, at, node, Kind::Int, number)?;
    Ok(value)
}
