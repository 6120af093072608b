ghost use Rattle.std.specs.Prelude.{◌≡◌, IfOk};
ghost use Rattle.cf_elab.specs.Answer.{Made};
ghost use Rattle.cf_elab.specs.Cast as cast;
ghost use Rattle.cf_elab.specs.Fit as standard;
ghost use Rattle.cf_elab.specs.Operand as operand;
ghost use Rattle.cf_elab_cast.specs.Shut as shut;
ghost use Rattle.cf_elab_cast.specs.Forms.{IsEnumeral};
ghost use Rattle.cf_elab_env.specs.Answered.{Agrees};
ghost use Rattle.cf_elab_env.specs.Holds.{Known, IsType};

use crate::same::same_types;
use cf_base::{Boxed, Kind, Memory};
use cf_core::Core;
use cf_elab_arith::broken;
use cf_elab_env::{Env, Stop, Value};
use cf_elab_numbers::convert_number;
use cf_types::TyId;

/// The value as one of a type that is the same otherwise than in const; else K17 (5.4).
#[tactic(auto, using(crate::proofs::MadeLaws::retyped_laws))]
pub(crate) fn retyped(env: &Env, at: u32, ty: TyId, value: Value) -> Result<Value, Stop>
    requires known { Known env.now.types value }
    requires typed { IsType env.now.types ty }
    ensures made { Agrees (shut.retyped at ty value env.now) result env.now }
    ensures known { IfOk result (λ v. Known env.now.types v) }
{
    if same_types(env, value.ty(), ty) {
        Ok(value.with_type(ty).with_number(None))
    } else {
        Err(Stop::Broken(broken(17, at)))
    }
}

/// A value as one of an enumeration: an integer is converted (7.2).
#[tactic(auto, using(crate::proofs::MadeLaws::enumeration_known))]
pub(crate) fn as_enumeration(env: &Env, at: u32, ty: TyId, value: Value) -> Result<Value, Memory>
    requires typed { IsType env.now.types ty }
    requires wanted { IsEnumeral (operand.sort_of env.now.types ty) }
    ensures made { IfOk result (λ v. v ≡ cast.as_enumeration at ty value) }
    ensures known { IfOk result (λ v. Known env.now.types v) }
{
    let is_lvalue = value.is_lvalue();
    let is_fixed = value.is_fixed();
    let number = convert_number(Kind::Int, value.number());
    let node = converted(env, at, ty, value)?;
    Ok(
        Value::computed(at, node, ty)
            .with_number(number)
            .with_lvalue(is_lvalue)
            .with_fixed(is_fixed),
    )
}

/// The node that converts a value to a type.
fn converted(env: &Env, at: u32, ty: TyId, value: Value) -> Result<Boxed<Core>, Memory>
    ensures { IfOk result (λ n. n ≡ Core.Convert at ty value.node) }
{
    let operand = value.into_node();
    let node = Boxed::new(env.alloc(), Core::Convert { at, ty, operand })?;
    Ok(node)
}

/// A pointer to void as one of this type, to an object of the type behind it.
#[tactic(auto, using(crate::proofs::MadeLaws::unnumbered))]
pub(crate) fn from_void(
    env: &Env,
    at: u32,
    ty: TyId,
    object: TyId,
    value: Value,
) -> Result<Value, Memory>
    requires { IsType env.now.types ty }
    ensures made { IfOk result (λ v. v ≡ cast.from_void at ty object value) }
    ensures known { IfOk result (λ v. Known env.now.types v) }
{
    let node = Boxed::new(
        env.alloc(),
        Core::FromVoid {
            at,
            ty: object,
            operand: value.into_node(),
        },
    )?;
    Ok(Value::computed(at, node, ty))
}

/// A pointer to an object as a pointer to void of this type.
#[tactic(auto, using(crate::proofs::MadeLaws::unnumbered))]
pub(crate) fn to_void(env: &Env, at: u32, ty: TyId, value: Value) -> Result<Value, Memory>
    requires { IsType env.now.types ty }
    ensures made { IfOk result (λ v. v ≡ cast.to_void at ty value) }
    ensures known { IfOk result (λ v. Known env.now.types v) }
{
    let is_fixed = value.is_fixed();
    let node = converted(env, at, ty, value)?;
    Ok(Value::computed(at, node, ty).with_fixed(is_fixed))
}

/// The null pointer of this type, which the constant 0 gives (4.6).
#[tactic(auto, using(crate::proofs::MadeLaws::unnumbered))]
pub(crate) fn null_of(env: &Env, ty: TyId, zero: Value) -> Result<Value, Memory>
    requires { IsType env.now.types ty }
    ensures made { IfOk result (λ v. v ≡ standard.null_of ty zero) }
    ensures known { IfOk result (λ v. Known env.now.types v) }
{
    let at = zero.at();
    let operand = Boxed::new(env.alloc(), Core::Number { at, value: 0 })?;
    let node = Boxed::new(env.alloc(), Core::Convert { at, ty, operand })?;
    Ok(Value::computed(at, node, ty).with_fixed(true))
}

/// A value that is not read, as one of a type that is void.
#[tactic(auto, using(crate::proofs::MadeLaws::nothing_laws))]
pub(crate) fn to_nothing(env: &Env, at: u32, ty: TyId, value: Value) -> Result<Value, Memory>
    requires known { IsType env.now.types value.type }
    requires typed { IsType env.now.types ty }
    ensures made { IfOk result (λ v. shut.to_nothing at ty value env.now ≡ Made v env.now) }
    ensures known { IfOk result (λ v. Known env.now.types v) }
{
    env.holds();
    let node = converted(env, at, ty, value)?;
    Ok(Value::computed(at, node, ty))
}
