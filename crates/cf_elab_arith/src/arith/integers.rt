ghost use Rattle.std.specs.Prelude.{◌≡◌, IfOk, OnOk};
ghost use Rattle.cf_elab.specs.Answer.{Made};
ghost use Rattle.cf_elab_arith.specs.Arith.Shut as shut;
ghost use Rattle.cf_elab_env.specs.Answered.{Agrees};
ghost use Rattle.cf_elab_env.specs.Holds.{Known, Grows};
ghost use Rattle.cf_elab_fit.specs.NumbersNumbers.{NumberOf};

use cf_base::{Arith, Boxed, Kind, Memory};
use cf_core::{Core, UnaryOperator};
use cf_elab_env::{Env, Stop, Value};
use cf_elab_fit::{
    complement, negative, operand_kind, operated, operator_kind, result_kind, to_kind,
};

/// A computed value of an integer type, with its number where it is known (5.19).
#[tactic(auto, using(crate::proofs::ArithLaws::StepLaws::integer_laws))]
pub fn integer(
    env: &mut Env,
    at: u32,
    node: Core,
    kind: Kind,
    number: Option<i64>,
) -> Result<Value, Memory>
    requires { NumberOf kind number }
    ensures made { IfOk result (λ v. shut.integer at node kind number env.old ≡ Made v env.new) }
    ensures known { IfOk result (λ v. Known env.new.types v) }
    ensures grows { OnOk result (Grows env.old.types env.new.types) }
{
    let ty = env.of_kind(kind)?;
    let node = Boxed::new(env.alloc(), node)?;
    Ok(Value::computed(at, node, ty).with_number(number))
}

/// An operator on two values, by the promoted types of both (4.5, 5.6 to 5.13).
#[tactic(auto, using(crate::proofs::ArithLaws::StepLaws::on_kinds_laws))]
pub fn on_kinds(
    env: &mut Env,
    at: u32,
    op: Arith,
    left: Kind,
    right: Kind,
    x: Value,
    y: Value,
) -> Result<Value, Stop>
    requires x_known { Known env.old.types x }
    requires y_known { Known env.old.types y }
    ensures made { Agrees (shut.on_kinds at op left right x y env.old) result env.new }
    ensures known { IfOk result (λ v. Known env.new.types v) }
    ensures grows { OnOk result (Grows env.old.types env.new.types) }
{
    let kind = operator_kind(op, left, right);
    let a = to_kind(env, kind, x)?;
    let b = to_kind(env, operand_kind(op, left, right), y)?;
    let number = operated(op, kind, a.number(), b.number());
    let node = Core::Operate {
        at,
        op,
        kind,
        left: a.into_node(),
        right: b.into_node(),
    };
    let value = integer(env, at, node, result_kind(op, kind), number)?;
    Ok(value)
}

/// `-` of a value of this promoted type (5.3).
#[tactic(auto, using(crate::proofs::ArithLaws::StepLaws::negated_laws))]
pub fn negated(env: &mut Env, at: u32, kind: Kind, x: Value) -> Result<Value, Stop>
    requires { Known env.old.types x }
    ensures made { Agrees (shut.negated at kind x env.old) result env.new }
    ensures known { IfOk result (λ v. Known env.new.types v) }
    ensures grows { OnOk result (Grows env.old.types env.new.types) }
{
    let a = to_kind(env, kind, x)?;
    let number = negative(kind, a.number());
    let node = Core::Unary {
        at,
        op: UnaryOperator::Negate,
        kind,
        operand: a.into_node(),
    };
    let value = integer(env, at, node, kind, number)?;
    Ok(value)
}

/// `~` of a value of this promoted type (5.3).
#[tactic(auto, using(crate::proofs::ArithLaws::StepLaws::complemented_laws))]
pub fn complemented(env: &mut Env, at: u32, kind: Kind, x: Value) -> Result<Value, Stop>
    requires { Known env.old.types x }
    ensures made { Agrees (shut.complemented at kind x env.old) result env.new }
    ensures known { IfOk result (λ v. Known env.new.types v) }
    ensures grows { OnOk result (Grows env.old.types env.new.types) }
{
    let a = to_kind(env, kind, x)?;
    let number = complement(kind, a.number());
    let node = Core::Unary {
        at,
        op: UnaryOperator::Complement,
        kind,
        operand: a.into_node(),
    };
    let value = integer(env, at, node, kind, number)?;
    Ok(value)
}
