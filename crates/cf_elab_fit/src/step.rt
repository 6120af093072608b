ghost use Rattle.std.specs.Prelude.{◌≡◌, IfOk, OnOk};
ghost use Rattle.cf_elab.specs.Answer.{Made};
ghost use Rattle.cf_elab.specs.Fit as standard;
ghost use Rattle.cf_elab_env.specs.Holds.{Grows, IsType};
ghost use Rattle.cf_elab_fit.specs.Shut as shut;
ghost use Rattle.cf_elab_fit.specs.Steps.{kind_promoted};

use crate::reading::{plain_typed, read_typed};
use cf_base::{Boxed, Kind, Memory};
use cf_convert::ConvStep;
use cf_core::Core;
use cf_elab_env::{Env, Sort, Value};
use cf_elab_numbers::convert_number;
use cf_types::TyId;

/// A value by these steps, one after the other, as one of the type.
#[tactic(auto, using(crate::proofs::Stepped::all_laws, cf_elab_env::proofs::Growth::grown_laws))]
pub(crate) fn all_steps(
    env: &mut Env,
    to: TyId,
    steps: &[ConvStep],
    value: Value,
) -> Result<Value, Memory>
    requires typed { IsType env.old.types value.type }
    requires to_known { IsType env.old.types to }
    ensures made { IfOk result (λ v. shut.all_steps to steps.now value env.old ≡ Made v env.new) }
    ensures wanted { IfOk result (λ v. v.type ≡ to) }
    ensures grows { OnOk result (Grows env.old.types env.new.types) }
{
    match steps.split_first() {
        None => Ok(value.with_type(to)),
        Some((step, rest)) => {
            let next = stepped(env, to, step, value)?;
            let last = all_steps(env, to, rest, next)?;
            Ok(last)
        }
    }
}

/// One step on the way to the type (4).
#[tactic(auto, using(crate::proofs::Stepped::step_laws, cf_elab_env::proofs::Growth::grown_laws))]
fn stepped(env: &mut Env, to: TyId, step: &ConvStep, value: Value) -> Result<Value, Memory>
    requires typed { IsType env.old.types value.type }
    requires to_known { IsType env.old.types to }
    ensures made { IfOk result (λ v. shut.stepped to step.now value env.old ≡ Made v env.new) }
    ensures typed { IfOk result (λ v. IsType env.new.types v.type) }
    ensures grows { OnOk result (Grows env.old.types env.new.types) }
{
    match step {
        ConvStep::Read => {
            let read = read_typed(env, value)?;
            Ok(read)
        }
        ConvStep::Decay => {
            let pointer = plain_typed(env, value)?;
            Ok(pointer)
        }
        ConvStep::AddConst => Ok(value),
        ConvStep::Promote => {
            let kind = promoted_kind(env.sort_of(to));
            let promoted = to_integer(env, to, kind, value)?;
            Ok(promoted)
        }
        ConvStep::Integer(kind) => {
            let integer = to_integer(env, to, *kind, value)?;
            Ok(integer)
        }
        ConvStep::Null => {
            let null = null_of(env, to, value)?;
            Ok(null)
        }
        ConvStep::ToVoid => {
            let pointer = to_void(env, to, value)?;
            Ok(pointer)
        }
        // So far no class is defined, and no step goes to a base.
        ConvStep::ToBase(_) => Err(Memory),
        ConvStep::ToMember(_) => Err(Memory),
    }
}

/// The integer type that promotion goes to.
fn promoted_kind(sort: Sort) -> Kind
    ensures { result ≡ kind_promoted sort }
{
    match sort {
        Sort::Integral(kind) => kind,
        _ => Kind::Int,
    }
}

/// A value as one of an integer type (4.3).
fn to_integer(env: &Env, to: TyId, kind: Kind, value: Value) -> Result<Value, Memory>
    ensures { IfOk result (λ v. v ≡ standard.to_integer to kind value) }
{
    let at = value.at();
    let is_lvalue = value.is_lvalue();
    let is_fixed = value.is_fixed();
    let number = convert_number(kind, value.number());
    let operand = value.into_node();
    let node = Boxed::new(
        env.alloc(),
        Core::Convert {
            at,
            ty: to,
            operand,
        },
    )?;
    Ok(
        Value::computed(at, node, to)
            .with_number(number)
            .with_lvalue(is_lvalue)
            .with_fixed(is_fixed),
    )
}

/// The null pointer of a type (4.6).
fn null_of(env: &Env, to: TyId, value: Value) -> Result<Value, Memory>
    ensures { IfOk result (λ v. v ≡ standard.null_of to value) }
{
    let at = value.at();
    let operand = Boxed::new(env.alloc(), Core::Number { at, value: 0 })?;
    let node = Boxed::new(
        env.alloc(),
        Core::Convert {
            at,
            ty: to,
            operand,
        },
    )?;
    Ok(Value::computed(at, node, to).with_fixed(true))
}

/// A pointer to an object as a pointer to `void` (4.6).
fn to_void(env: &Env, to: TyId, value: Value) -> Result<Value, Memory>
    ensures { IfOk result (λ v. v ≡ standard.wrapped (λ at n. Core.Convert at to n) value) }
{
    let at = value.at();
    let ty = value.ty();
    let is_lvalue = value.is_lvalue();
    let is_fixed = value.is_fixed();
    let operand = value.into_node();
    let node = Boxed::new(
        env.alloc(),
        Core::Convert {
            at,
            ty: to,
            operand,
        },
    )?;
    Ok(
        Value::computed(at, node, ty)
            .with_lvalue(is_lvalue)
            .with_fixed(is_fixed),
    )
}
