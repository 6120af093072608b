//! Each form of expression by its parts. Of several parts all but the last are elaborated before.

ghost use Rattle.std.specs.Prelude.{◌≡◌, IfOk, OnOk};
ghost use Rattle.cf_elab_env.specs.Answered.{Agrees, AgreesAs};
ghost use Rattle.cf_elab_env.specs.SeenOperand.{operand_seen};
ghost use Rattle.cf_elab_env.specs.Holds.{Known, Grows, IsType};
ghost use Rattle.cf_elab.specs.Answer.{Made};
ghost use Rattle.cf_elab_operand.specs.Operands.{IsOperand};
ghost use Rattle.cf_elab_operand.specs.Shut as row;
ghost use Rattle.cf_elab_operators.specs.Operators.Shut as operator;
ghost use Rattle.cf_elab_expr.specs.Shut as shut;

use crate::expression::{evaluated, operand};
use crate::types::type_of;
use cf_base::{Boxed, Bytes, Kind, Memory};
use cf_elab_cast::{cast as cast_value, conditional as chosen};
use cf_elab_env::{Env, Operand, Stop, Value};
use cf_elab_operand::{self as operands, value_of};
use cf_elab_operators as operators;
use cf_syntax::{AssignOp, BinaryOp, Expr, Name, PrefixOp, StepOp, TypeId};
use cf_types::{TyId, convert_int};

/// An integer constant (2.5.1).
#[tactic(auto, using(crate::proofs::Parts::int_is))]
pub(crate) fn integer(at: u32, number: u32, kind: Kind, env: &mut Env) -> Result<Operand, Stop>
    ensures made { AgreesAs operand_seen (shut.run (Expr.Int at number kind) env.old) result env.new }
    ensures known { IfOk result (λ o. IsOperand env.new.types o) }
    ensures grows { OnOk result (Grows env.old.types env.new.types) }
{
    let found = constant(at, i64::from(number), kind, env)?;
    Ok(found)
}

/// A character constant (2.5.2).
#[tactic(auto, using(crate::proofs::Parts::char_is))]
pub(crate) fn character(at: u32, value: i8, env: &mut Env) -> Result<Operand, Stop>
    ensures made { AgreesAs operand_seen (shut.run (Expr.Char at value) env.old) result env.new }
    ensures known { IfOk result (λ o. IsOperand env.new.types o) }
    ensures grows { OnOk result (Grows env.old.types env.new.types) }
{
    let found = constant(at, i64::from(value), Kind::Char, env)?;
    Ok(found)
}

/// A constant of this type. A number that is none of its values, which the tokens of no file give, is answered as want of memory.
#[tactic(auto, using(crate::proofs::Numbers::fits_same))]
fn constant(at: u32, number: i64, kind: Kind, env: &mut Env) -> Result<Operand, Memory>
    ensures made { IfOk result (λ o. row.integer at number kind env.old ≡ Made (operand_seen o) env.new) }
    ensures known { IfOk result (λ o. IsOperand env.new.types o) }
    ensures grows { OnOk result (Grows env.old.types env.new.types) }
{
    if convert_int(number, kind) == number {
        let found = operands::integer(env, at, number, kind)?;
        Ok(found)
    } else {
        Err(Memory)
    }
}

/// A string literal (2.5.4).
#[tactic(auto, using(crate::proofs::Parts::text_is))]
pub(crate) fn text(at: u32, bytes: &Bytes, env: &mut Env) -> Result<Operand, Stop>
    ensures made { AgreesAs operand_seen (shut.run (Expr.Text at bytes.now) env.old) result env.new }
    ensures known { IfOk result (λ o. IsOperand env.new.types o) }
    ensures grows { OnOk result (Grows env.old.types env.new.types) }
{
    let found = operands::literal(env, at, bytes.as_slice())?;
    Ok(found)
}

/// A name (5.1).
#[tactic(auto, using(crate::proofs::Parts::named_is, crate::proofs::BuiltForms::name_built, cf_elab_operand::proofs::Grown::operand_grown, cf_elab_env::proofs::Growth::grown_laws))]
pub(crate) fn named(name: &Name, env: &mut Env) -> Result<Operand, Stop>
    requires { shut.IsBuilt (Expr.Named name.now) }
    ensures made { AgreesAs operand_seen (shut.run (Expr.Named name.now) env.old) result env.new }
    ensures known { IfOk result (λ o. IsOperand env.new.types o) }
    ensures grows { OnOk result (Grows env.old.types env.new.types) }
{
    let found = operands::named(env, name)?;
    Ok(found)
}

/// `e++` and `e--` (5.2.5)
#[cycle(expressions)]
#[tactic(auto, using(crate::proofs::Parts::behind_is, crate::proofs::BuiltForms::behind_inside))]
pub(crate) fn behind(a: &Boxed<Expr>, at: u32, op: StepOp, env: &mut Env) -> Result<Operand, Stop>
    requires { shut.IsBuilt (Expr.StepAfter at op a.now) }
    ensures made { AgreesAs operand_seen (shut.run (Expr.StepAfter at op a.now) env.old) result env.new }
    ensures known { IfOk result (λ o. IsOperand env.new.types o) }
    ensures grows { OnOk result (Grows env.old.types env.new.types) }
{
    let x = evaluated(a.get(), env)?;
    let value = operators::step_operator(env, at, op, true, x)?;
    Ok(Operand::Value(value))
}

/// `++e` and `--e` (5.3.1)
#[cycle(expressions)]
#[tactic(auto, using(crate::proofs::Parts::before_is, crate::proofs::BuiltForms::before_inside))]
pub(crate) fn before(a: &Boxed<Expr>, at: u32, op: StepOp, env: &mut Env) -> Result<Operand, Stop>
    requires { shut.IsBuilt (Expr.StepBefore at op a.now) }
    ensures made { AgreesAs operand_seen (shut.run (Expr.StepBefore at op a.now) env.old) result env.new }
    ensures known { IfOk result (λ o. IsOperand env.new.types o) }
    ensures grows { OnOk result (Grows env.old.types env.new.types) }
{
    let x = evaluated(a.get(), env)?;
    let value = operators::step_operator(env, at, op, false, x)?;
    Ok(Operand::Value(value))
}

/// The values of two, of which the first is elaborated.
#[cycle(expressions)]
#[tactic(auto, using(crate::proofs::Parts::second_is, cf_elab_operand::proofs::Grown::operand_grown, cf_elab_env::proofs::Growth::grown_laws))]
fn second(b: &Boxed<Expr>, o: Operand, env: &mut Env) -> Result<(Value, Value), Stop>
    requires first { IsOperand env.old.types o }
    requires built { shut.IsBuilt b.now }
    ensures made { Agrees (shut.second (operand_seen o) b.now env.old) result env.new }
    ensures known { IfOk result (λ xy. Known env.new.types xy.0 × Known env.new.types xy.1) }
    ensures grows { OnOk result (Grows env.old.types env.new.types) }
{
    let p = operand(b.get(), env)?;
    let x = value_of(env, o)?;
    let y = value_of(env, p)?;
    Ok((x, y))
}

/// `a[i]` (5.2.1)
#[cycle(expressions)]
#[tactic(auto, using(crate::proofs::Parts::two_is, cf_elab_operand::proofs::Grown::operand_grown, cf_elab_env::proofs::Growth::grown_laws))]
pub(crate) fn index(b: &Boxed<Expr>, at: u32, o: Operand, env: &mut Env) -> Result<Operand, Stop>
    requires first { IsOperand env.old.types o }
    requires built { shut.IsBuilt b.now }
    ensures made { AgreesAs operand_seen (shut.two (operator.index_operator at) (operand_seen o) b.now env.old) result env.new }
    ensures known { IfOk result (λ o. IsOperand env.new.types o) }
    ensures grows { OnOk result (Grows env.old.types env.new.types) }
{
    let (x, y) = second(b, o, env)?;
    let value = operators::index_operator(env, at, x, y)?;
    Ok(Operand::Value(value))
}

/// A binary operator with its operands (5.5 to 5.15).
#[cycle(expressions)]
#[tactic(auto, using(crate::proofs::Parts::two_is, cf_elab_operand::proofs::Grown::operand_grown, cf_elab_env::proofs::Growth::grown_laws))]
pub(crate) fn binary(
    b: &Boxed<Expr>,
    at: u32,
    op: BinaryOp,
    o: Operand,
    env: &mut Env,
) -> Result<Operand, Stop>
    requires first { IsOperand env.old.types o }
    requires built { shut.IsBuilt b.now }
    ensures made { AgreesAs operand_seen (shut.two (operator.binary_operator at op) (operand_seen o) b.now env.old) result env.new }
    ensures known { IfOk result (λ o. IsOperand env.new.types o) }
    ensures grows { OnOk result (Grows env.old.types env.new.types) }
{
    let (x, y) = second(b, o, env)?;
    let value = operators::binary_operator(env, at, op, x, y)?;
    Ok(Operand::Value(value))
}

/// `a=b` and its kin (5.17)
#[cycle(expressions)]
#[tactic(auto, using(crate::proofs::Parts::two_is, cf_elab_operand::proofs::Grown::operand_grown, cf_elab_env::proofs::Growth::grown_laws))]
pub(crate) fn assign(
    b: &Boxed<Expr>,
    at: u32,
    op: AssignOp,
    o: Operand,
    env: &mut Env,
) -> Result<Operand, Stop>
    requires first { IsOperand env.old.types o }
    requires built { shut.IsBuilt b.now }
    ensures made { AgreesAs operand_seen (shut.two (operator.assign_operator at op) (operand_seen o) b.now env.old) result env.new }
    ensures known { IfOk result (λ o. IsOperand env.new.types o) }
    ensures grows { OnOk result (Grows env.old.types env.new.types) }
{
    let (x, y) = second(b, o, env)?;
    let value = operators::assign_operator(env, at, op, x, y)?;
    Ok(Operand::Value(value))
}

/// `c?a:b` (5.16)
#[cycle(expressions)]
#[tactic(auto, using(crate::proofs::Parts::third_is, cf_elab_operand::proofs::Grown::operand_grown, cf_elab_env::proofs::Growth::grown_laws))]
pub(crate) fn conditional(
    b: &Boxed<Expr>,
    at: u32,
    o: Operand,
    p: Operand,
    env: &mut Env,
) -> Result<Operand, Stop>
    requires first { IsOperand env.old.types o }
    requires next { IsOperand env.old.types p }
    requires built { shut.IsBuilt b.now }
    ensures made { AgreesAs operand_seen (shut.third at (operand_seen o) (operand_seen p) b.now env.old) result env.new }
    ensures known { IfOk result (λ o. IsOperand env.new.types o) }
    ensures grows { OnOk result (Grows env.old.types env.new.types) }
{
    let q = operand(b.get(), env)?;
    let x = value_of(env, o)?;
    let y = value_of(env, p)?;
    let z = value_of(env, q)?;
    let value = chosen(env, at, x, y, z)?;
    Ok(Operand::Value(value))
}

/// A unary operator with its operand (5.3).
#[cycle(expressions)]
#[tactic(auto, using(crate::proofs::Parts::prefix_is, crate::proofs::BuiltForms::prefix_inside))]
pub(crate) fn prefix(a: &Boxed<Expr>, at: u32, op: PrefixOp, env: &mut Env) -> Result<Operand, Stop>
    requires { shut.IsBuilt (Expr.Prefix at op a.now) }
    ensures made { AgreesAs operand_seen (shut.run (Expr.Prefix at op a.now) env.old) result env.new }
    ensures known { IfOk result (λ o. IsOperand env.new.types o) }
    ensures grows { OnOk result (Grows env.old.types env.new.types) }
{
    let x = evaluated(a.get(), env)?;
    let value = operators::prefix_operator(env, at, op, x)?;
    Ok(Operand::Value(value))
}

/// `sizeof e`: the operand is elaborated and not evaluated, so its literals are none of the function's (5.3.2).
#[cycle(expressions)]
#[tactic(auto, using(crate::proofs::Parts::size_is, crate::proofs::BuiltForms::size_inside, cf_elab_operand::proofs::Grown::operand_grown, cf_elab_env::proofs::Growth::grown_laws))]
pub(crate) fn size(a: &Boxed<Expr>, at: u32, env: &mut Env) -> Result<Operand, Stop>
    requires { shut.IsBuilt (Expr.SizeofExpr at a.now) }
    ensures made { AgreesAs operand_seen (shut.run (Expr.SizeofExpr at a.now) env.old) result env.new }
    ensures known { IfOk result (λ o. IsOperand env.new.types o) }
    ensures grows { OnOk result (Grows env.old.types env.new.types) }
{
    let literals = env.literals();
    let o = operand(a.get(), env)?;
    let found = operands::size_behind(env, at, literals, o)?;
    Ok(found)
}

/// `sizeof` of a type in brackets (5.3.2).
#[cycle(expressions)]
#[tactic(auto, using(crate::proofs::Parts::size_of_type_is, crate::proofs::BuiltForms::size_of_type, cf_elab_env::proofs::Growth::grown_laws))]
pub(crate) fn size_of_type(t: &Boxed<TypeId>, at: u32, env: &mut Env) -> Result<Operand, Stop>
    requires { shut.IsBuilt (Expr.SizeofType at t.now) }
    ensures made { AgreesAs operand_seen (shut.run (Expr.SizeofType at t.now) env.old) result env.new }
    ensures known { IfOk result (λ o. IsOperand env.new.types o) }
    ensures grows { OnOk result (Grows env.old.types env.new.types) }
{
    let ty = type_of(t.get(), env)?;
    let value = operands::size_constant(env, at, ty)?;
    Ok(Operand::Value(value))
}

/// `(T)e`, where the type is elaborated (5.4).
#[cycle(expressions)]
#[tactic(auto, using(crate::proofs::Parts::cast_to_is, cf_elab_env::proofs::Growth::grown_laws))]
pub(crate) fn cast(a: &Boxed<Expr>, at: u32, ty: TyId, env: &mut Env) -> Result<Operand, Stop>
    requires typed { IsType env.old.types ty }
    requires built { shut.IsBuilt a.now }
    ensures made { AgreesAs operand_seen (shut.cast_to at ty a.now env.old) result env.new }
    ensures known { IfOk result (λ o. IsOperand env.new.types o) }
    ensures grows { OnOk result (Grows env.old.types env.new.types) }
{
    let x = evaluated(a.get(), env)?;
    let value = cast_value(env, at, ty, x)?;
    Ok(Operand::Value(value))
}
