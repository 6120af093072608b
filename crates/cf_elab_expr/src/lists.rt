//! Several expressions: arguments, and operands between commas.

ghost use Rattle.std.specs.Prelude.{◌≡◌, IfOk, OnOk, All, map};
ghost use Rattle.cf_elab_env.specs.Answered.{Agrees, AgreesAs};
ghost use Rattle.cf_elab_env.specs.SeenOperand.{operand_seen};
ghost use Rattle.cf_elab_env.specs.Holds.{Known, Grows, IsType};
ghost use Rattle.cf_elab_operand.specs.Operands.{IsOperand};
ghost use Rattle.cf_elab_expr.specs.Seen.{operands_seen};
ghost use Rattle.cf_elab_expr.specs.Shut as shut;

use crate::expression::operand;
use cf_base::Items;
use cf_elab_call::call_operand;
use cf_elab_cast::{from_arguments, sequence};
use cf_elab_env::{Env, Operand, Stop, Value};
use cf_elab_operand as operands;
use cf_syntax::Expr;
use cf_types::TyId;

/// What several expressions are, in order.
#[cycle(expressions)]
#[tactic(auto, using(cf_elab_operand::proofs::Grown::operand_grown, cf_elab_env::proofs::Growth::grown_laws))]
fn run(all: &[Expr], env: &mut Env) -> Result<Items<Operand>, Stop>
    requires { shut.AreBuilt all.now }
    ensures made { AgreesAs operands_seen (shut.runs all.now env.old) result env.new }
    ensures known { IfOk result (λ os. All (λ o. IsOperand env.new.types o) os) }
    ensures grows { OnOk result (Grows env.old.types env.new.types) }
{
    let mut found = Items::new(env.alloc());
    for e in all {
        found.push(operand(e, env)?)?;
    }
    Ok(found)
}

/// The values of several expressions, which are all elaborated before the first is looked at.
#[cycle(expressions)]
#[tactic(auto, using(crate::proofs::Parts::values_is))]
pub fn values(all: &[Expr], env: &mut Env) -> Result<Items<Value>, Stop>
    requires { shut.AreBuilt all.now }
    ensures made { Agrees (shut.values all.now env.old) result env.new }
    ensures known { IfOk result (λ vs. All (λ v. Known env.new.types v) vs) }
    ensures grows { OnOk result (Grows env.old.types env.new.types) }
{
    let found = run(all, env)?;
    let values = operands::values(env, found)?;
    Ok(values)
}

/// A call of what is elaborated, with these arguments (5.2.2).
#[cycle(expressions)]
#[tactic(auto, using(crate::proofs::Parts::called_is, cf_elab_operand::proofs::Grown::operand_grown, cf_elab_env::proofs::Growth::grown_laws))]
pub(crate) fn call(arguments: &[Expr], at: u32, o: Operand, env: &mut Env) -> Result<Operand, Stop>
    requires first { IsOperand env.old.types o }
    requires built { shut.AreBuilt arguments.now }
    ensures made { AgreesAs operand_seen (shut.called at (operand_seen o) arguments.now env.old) result env.new }
    ensures known { IfOk result (λ o. IsOperand env.new.types o) }
    ensures grows { OnOk result (Grows env.old.types env.new.types) }
{
    let values = values(arguments, env)?;
    let value = call_operand(env, at, o, values)?;
    Ok(Operand::Value(value))
}

/// `a, b` (5.18)
#[cycle(expressions)]
#[tactic(auto, using(crate::proofs::Parts::comma_of, cf_elab_operand::proofs::Grown::operand_grown, cf_elab_env::proofs::Growth::grown_laws))]
pub(crate) fn comma(all: &[Expr], at: u32, env: &mut Env) -> Result<Operand, Stop>
    requires { shut.AreBuilt all.now }
    ensures made { AgreesAs operand_seen (shut.between at all.now env.old) result env.new }
    ensures known { IfOk result (λ o. IsOperand env.new.types o) }
    ensures grows { OnOk result (Grows env.old.types env.new.types) }
{
    let values = values(all, env)?;
    let value = sequence(env, at, values)?;
    Ok(Operand::Value(value))
}

/// A type that is no class, with these arguments (5.2.3).
#[cycle(expressions)]
#[tactic(auto, using(crate::proofs::Parts::of_type_is, crate::proofs::Parts::given_is, cf_elab_operand::proofs::Grown::operand_grown, cf_elab_env::proofs::Growth::grown_laws))]
pub(crate) fn of_type(arguments: &[Expr], at: u32, ty: TyId, env: &mut Env) -> Result<Operand, Stop>
    requires typed { IsType env.old.types ty }
    requires built { shut.AreBuilt arguments.now }
    ensures made { AgreesAs operand_seen (shut.of_type at ty arguments.now env.old) result env.new }
    ensures known { IfOk result (λ o. IsOperand env.new.types o) }
    ensures grows { OnOk result (Grows env.old.types env.new.types) }
{
    let values = values(arguments, env)?;
    env.holds();
    let value = from_arguments(env, at, ty, values)?;
    Ok(Operand::Value(value))
}
