ghost use Rattle.std.specs.Prelude.{◌≡◌, IfOk, OnOk};
ghost use Rattle.cf_elab_env.specs.Answered.{Agrees, AgreesAs};
ghost use Rattle.cf_elab_env.specs.SeenOperand.{operand_seen};
ghost use Rattle.cf_elab_env.specs.Holds.{Known, Grows};
ghost use Rattle.cf_elab_operand.specs.Operands.{IsOperand};
ghost use Rattle.cf_elab_expr.specs.Shut as shut;

use crate::names::call_place;
use crate::types::{basic_type, type_of};
use crate::{built, forms, lists};
use cf_elab_env::{Env, Operand, Stop, Value};
use cf_elab_operand::value_of;
use cf_elab_specifiers::type_at_path;
use cf_syntax::Expr;

/// What an expression is: its parts from left to right, and then what its construct asks of them (5).
#[cycle(expressions)]
#[tactic(auto, using(crate::proofs::BuiltForms::unbuilt_laws, crate::proofs::Parts::paren_is, crate::proofs::Parts::basic_is, crate::proofs::Parts::typed_is, crate::proofs::Parts::call_is, crate::proofs::Parts::comma_is, crate::proofs::Parts::index_is, crate::proofs::Parts::binary_is, crate::proofs::Parts::assign_is, crate::proofs::Parts::conditional_is, crate::proofs::Parts::cast_is, cf_elab_operand::proofs::Grown::operand_grown, cf_elab_env::proofs::Growth::grown_laws))]
pub fn operand(e: &Expr, env: &mut Env) -> Result<Operand, Stop>
    requires { shut.IsBuilt e.now }
    ensures made { AgreesAs operand_seen (shut.run e.now env.old) result env.new }
    ensures known { IfOk result (λ o. IsOperand env.new.types o) }
    ensures grows { OnOk result (Grows env.old.types env.new.types) }
{
    match e {
        Expr::Int(at, number, kind) => forms::integer(*at, *number, *kind, env),
        Expr::Char(at, value) => forms::character(*at, *value, env),
        Expr::Text(at, bytes) => forms::text(*at, bytes, env),
        Expr::Paren(at, inside) => {
            built::paren(*at, inside);
            let found = operand(inside.get(), env)?;
            Ok(found)
        }
        Expr::Named(name) => forms::named(name, env),
        Expr::Index(at, a, b) => {
            built::index(*at, a, b);
            let o = operand(a.get(), env)?;
            let found = forms::index(b, *at, o, env)?;
            Ok(found)
        }
        Expr::StepAfter(at, op, a) => forms::behind(a, *at, *op, env),
        Expr::StepBefore(at, op, a) => forms::before(a, *at, *op, env),
        Expr::Prefix(at, op, a) => forms::prefix(a, *at, *op, env),
        Expr::SizeofExpr(at, a) => forms::size(a, *at, env),
        Expr::SizeofType(at, t) => forms::size_of_type(t, *at, env),
        Expr::Cast(at, t, a) => {
            built::cast(*at, t, a);
            let ty = type_of(t.get(), env)?;
            let found = forms::cast(a, *at, ty, env)?;
            Ok(found)
        }
        Expr::BasicCall(at, basic, arguments) => {
            built::basic(*at, *basic, arguments);
            let ty = basic_type(env, *at, *basic)?;
            let found = lists::of_type(arguments.as_slice(), *at, ty, env)?;
            Ok(found)
        }
        Expr::TypeCall(at, path, arguments) => {
            built::typed(*at, path, arguments);
            let ty = type_at_path(env, path)?;
            let found = lists::of_type(arguments.as_slice(), *at, ty, env)?;
            Ok(found)
        }
        Expr::Call(at, called, arguments) => {
            built::call(*at, called, arguments);
            let o = operand(called.get(), env)?;
            let place = call_place(*at, called.get());
            let found = lists::call(arguments.as_slice(), place, o, env)?;
            Ok(found)
        }
        Expr::Comma(at, all) => {
            built::comma(*at, all);
            let found = lists::comma(all.as_slice(), *at, env)?;
            Ok(found)
        }
        Expr::Binary(at, op, a, b) => {
            built::binary(*at, *op, a, b);
            let o = operand(a.get(), env)?;
            let found = forms::binary(b, *at, *op, o, env)?;
            Ok(found)
        }
        Expr::Conditional(at, c, a, b) => {
            built::conditional(*at, c, a, b);
            let o = operand(c.get(), env)?;
            let p = operand(a.get(), env)?;
            let found = forms::conditional(b, *at, o, p, env)?;
            Ok(found)
        }
        Expr::Assign(at, op, a, b) => {
            built::assign(*at, *op, a, b);
            let o = operand(a.get(), env)?;
            let found = forms::assign(b, *at, *op, o, env)?;
            Ok(found)
        }
        Expr::This(_)
        | Expr::Dot(_, _, _)
        | Expr::Arrow(_, _, _)
        | Expr::Delete(_, _, _, _)
        | Expr::New(_, _, _, _, _, _, _)
        | Expr::NewBracketed(_, _, _, _, _) => unreachable!(),
    }
}

/// The one value of an expression.
#[cycle(expressions)]
#[tactic(auto, using(crate::proofs::Parts::valued_is))]
pub fn evaluated(e: &Expr, env: &mut Env) -> Result<Value, Stop>
    requires { shut.IsBuilt e.now }
    ensures made { Agrees (shut.valued e.now env.old) result env.new }
    ensures known { IfOk result (λ v. Known env.new.types v) }
    ensures grows { OnOk result (Grows env.old.types env.new.types) }
{
    let found = operand(e, env)?;
    let value = value_of(env, found)?;
    Ok(value)
}
