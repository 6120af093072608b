//! Enumerators with their expressions, in order.

ghost use Rattle.std.specs.Prelude.{◌≡◌, Some, pos, IfOk, OnOk};
ghost use Rattle.cf_elab.specs.Operand.{enumeral, sort_of};
ghost use Rattle.cf_elab_env.specs.Answered.{Agrees};
ghost use Rattle.cf_elab_env.specs.Holds.{Grows, IsType};
ghost use Rattle.cf_elab_declaration.specs.Enums.Forms.{AreBuilt, IsBuilt};
ghost use Rattle.cf_elab_declaration.specs.Enums.Shut as shut;
ghost use Rattle.cf_elab_expr.specs.Shut as expression;

use cf_base::{Items, Name};
use cf_elab_enumeration::{Counted, declare_counted, declare_own, number_of, one_more};
use cf_elab_env::{Env, Stop, Value};
use cf_elab_expr::evaluated;
use cf_syntax::Expr;
use cf_types::TyId;
use cf_unit::Enumerator;

/// The enumerators of the enumeration of this number and type. The expression of each is elaborated with those before it; the first is 0 without one.
pub(crate) fn counted(
    list: &[Enumerator],
    number: u32,
    ty: TyId,
    env: &mut Env,
) -> Result<Items<Counted>, Stop>
    requires built { AreBuilt list.now }
    requires known { IsType env.old.types ty }
    requires enumeration { sort_of env.old.types ty ≡ enumeral number }
    ensures made { Agrees (shut.counted ty (Some (pos 0)) list.now env.old) result env.new }
    ensures grows { OnOk result (Grows env.old.types env.new.types) }
{
    let mut all = Items::new(env.alloc());
    let mut next = Some(0);
    for e in list {
        let one = counted_one(e, number, ty, next, env)?;
        next = one_more(its_number(&one))?;
        all.push(one)?;
    }
    Ok(all)
}

fn its_number(one: &Counted) -> Option<i64>
    ensures { result ≡ one.now.number }
{
    one.number
}

/// An enumerator, which without an expression has this number.
#[tactic(auto, using(crate::proofs::EnumsLaws::CountingLaws::one_laws))]
fn counted_one(
    e: &Enumerator,
    number: u32,
    ty: TyId,
    next: Option<i64>,
    env: &mut Env,
) -> Result<Counted, Stop>
    requires built { IsBuilt e.now.value }
    requires known { IsType env.old.types ty }
    requires enumeration { sort_of env.old.types ty ≡ enumeral number }
    ensures made { Agrees (shut.counted_one ty next e.now env.old) result env.new }
    ensures grows { OnOk result (Grows env.old.types env.new.types) }
{
    let value = value_behind(e, ty, env)?;
    let one = Counted {
        at: e.at,
        name: Name::from_slice(env.alloc(), e.name.as_slice())?,
        number: number_of(next, &value),
    };
    declare_counted(env, number, ty, &one)?;
    Ok(one)
}

/// The value behind `=`, if there is one.
#[tactic(auto, using(crate::proofs::EnumsLaws::CountingLaws::value_laws))]
fn value_behind(e: &Enumerator, ty: TyId, env: &mut Env) -> Result<Option<Value>, Stop>
    requires built { IsBuilt e.now.value }
    requires known { IsType env.old.types ty }
    ensures made { Agrees (shut.value ty e.now env.old) result env.new }
    ensures grows { OnOk result (Grows env.old.types env.new.types) }
{
    match &e.value {
        None => Ok(None),
        Some((_, expression)) => {
            let value = own_value(expression.get(), ty, e.name.as_slice(), env)?;
            Ok(Some(value))
        }
    }
}

/// The value of the expression of an enumerator of this name, in a scope in which the name stands for it and has no value yet (3.2).
#[tactic(auto, using(crate::proofs::EnumsLaws::CountingLaws::own_laws))]
fn own_value(e: &Expr, ty: TyId, name: &[u8], env: &mut Env) -> Result<Value, Stop>
    requires built { expression.IsBuilt e.now }
    requires known { IsType env.old.types ty }
    ensures made { Agrees (shut.own_value ty name.now e.now env.old) result env.new }
    ensures grows { OnOk result (Grows env.old.types env.new.types) }
{
    env.enter_scope()?;
    declare_own(env, ty, name)?;
    let value = evaluated(e, env)?;
    env.leave_scope();
    Ok(value)
}
