ghost use Rattle.std.specs.Prelude.{IfOk, OnOk};
ghost use Rattle.cf_elab_cast.specs.Forms.{Allows};
ghost use Rattle.cf_elab_cast.specs.Shut as shut;
ghost use Rattle.cf_elab_env.specs.Answered.{Agrees};
ghost use Rattle.cf_elab_env.specs.Holds.{Known, Grows, IsType};

use crate::form::{Form, Target, form_at, target_at};
use crate::made::{as_enumeration, from_void, null_of, retyped, to_nothing, to_void};
use cf_elab_arith::broken;
use cf_elab_env::{Env, Stop, Value};
use cf_elab_fit::{fit, plain};
use cf_types::TyId;

/// A cast to a type that is no class, of a value that is none: to void, to the place that a reference refers to, or to a value of the type; else K17
/// (5.4).
#[tactic(auto, using(crate::proofs::CastLaws::cast_laws))]
pub fn cast(env: &mut Env, at: u32, ty: TyId, value: Value) -> Result<Value, Stop>
    requires known { Known env.old.types value }
    requires typed { IsType env.old.types ty }
    ensures standard { Agrees (shut.cast at ty value env.old) result env.new }
    ensures operator { Agrees (shut.cast_operator at ty value env.old) result env.new }
    ensures known { IfOk result (λ v. Known env.new.types v) }
    ensures grows { OnOk result (Grows env.old.types env.new.types) }
{
    env.holds();
    let bare = env.bare(ty);
    let cast = cast_bare(env, at, bare, value)?;
    Ok(cast)
}

/// To a type without a const on it.
#[tactic(auto, using(crate::proofs::CastLaws::bare_laws))]
fn cast_bare(env: &mut Env, at: u32, ty: TyId, value: Value) -> Result<Value, Stop>
    requires known { Known env.old.types value }
    requires typed { IsType env.old.types ty }
    ensures made { Agrees (shut.cast_bare at ty value env.old) result env.new }
    ensures known { IfOk result (λ v. Known env.new.types v) }
    ensures grows { OnOk result (Grows env.old.types env.new.types) }
{
    match target_at(env, ty) {
        Target::Void => {
            let nothing = to_nothing(env, at, ty, value)?;
            Ok(nothing)
        }
        Target::Place(referred) => {
            let place = as_place(env, at, referred, value.with_at(at))?;
            Ok(place)
        }
        Target::Value => {
            let cast = cast_value(env, at, ty, value)?;
            Ok(cast)
        }
    }
}

/// An lvalue, which stands at the cast, as one of the type that a reference refers to; else K17.
#[tactic(auto, using(crate::proofs::CastLaws::place_laws))]
fn as_place(env: &Env, at: u32, ty: TyId, value: Value) -> Result<Value, Stop>
    requires known { Known env.now.types value }
    requires typed { IsType env.now.types ty }
    ensures made { Agrees (shut.as_place at ty value env.now) result env.now }
    ensures known { IfOk result (λ v. Known env.now.types v) }
{
    env.holds();
    if value.is_lvalue() {
        let place = retyped(env, at, ty, value)?;
        Ok(place)
    } else {
        Err(Stop::Broken(broken(17, at)))
    }
}

/// A value as one of a type that is no reference and not void. What is cast stands at the cast.
#[tactic(auto, using(crate::proofs::CastLaws::value_laws))]
fn cast_value(env: &mut Env, at: u32, ty: TyId, value: Value) -> Result<Value, Stop>
    requires known { Known env.old.types value }
    requires typed { IsType env.old.types ty }
    ensures made { Agrees (shut.cast_value at ty value env.old) result env.new }
    ensures known { IfOk result (λ v. Known env.new.types v) }
    ensures grows { OnOk result (Grows env.old.types env.new.types) }
{
    let found = plain(env, value)?;
    env.holds();
    let cast = cast_plain(env, at, ty, found.with_at(at))?;
    Ok(cast)
}

/// The same of a plain value.
#[tactic(auto, using(crate::proofs::CastLaws::plain_laws))]
fn cast_plain(env: &mut Env, at: u32, ty: TyId, value: Value) -> Result<Value, Stop>
    requires known { Known env.old.types value }
    requires typed { IsType env.old.types ty }
    ensures made { Agrees (shut.cast_plain at ty value env.old) result env.new }
    ensures known { IfOk result (λ v. Known env.new.types v) }
    ensures grows { OnOk result (Grows env.old.types env.new.types) }
{
    let form = form_at(env, ty, &value);
    let cast = cast_by(env, at, ty, form, value)?;
    Ok(cast)
}

/// A plain value cast in this way.
#[tactic(auto, using(crate::proofs::FormLaws::form_laws))]
pub(crate) fn cast_by(
    env: &mut Env,
    at: u32,
    ty: TyId,
    form: Form,
    value: Value,
) -> Result<Value, Stop>
    requires known { Known env.old.types value }
    requires typed { IsType env.old.types ty }
    requires allowed { Allows env.old.types ty value form }
    ensures made { Agrees (shut.cast_by at ty form value env.old) result env.new }
    ensures known { IfOk result (λ v. Known env.new.types v) }
    ensures grows { OnOk result (Grows env.old.types env.new.types) }
{
    match form {
        Form::Fit => {
            let integer = fit(env, at, value, ty)?;
            Ok(integer)
        }
        Form::Enumeration => {
            let enumerator = as_enumeration(env, at, ty, value)?;
            Ok(enumerator)
        }
        Form::Same => Ok(value.with_type(ty)),
        Form::Const => {
            let pointer = retyped(env, at, ty, value)?;
            Ok(pointer)
        }
        Form::FromVoid(object) => {
            let pointer = from_void(env, at, ty, object, value)?;
            Ok(pointer)
        }
        Form::ToVoid => {
            let pointer = to_void(env, at, ty, value)?;
            Ok(pointer)
        }
        Form::Null => {
            let null = null_of(env, ty, value)?;
            Ok(null)
        }
        Form::Nothing => {
            let nothing = to_nothing(env, at, ty, value)?;
            Ok(nothing)
        }
        Form::None => Err(Stop::Broken(broken(17, at))),
    }
}
