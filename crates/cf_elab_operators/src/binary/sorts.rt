ghost use Rattle.std.specs.Prelude.{◌≡◌, None, Some, true, IfOk, OnOk};
ghost use Rattle.cf_elab_arith.specs.Arith.Sorts as sorts;
ghost use Rattle.cf_elab_operators.specs.Binary.Shut as shut;
ghost use Rattle.cf_elab_env.specs.Answered.{Agrees};
ghost use Rattle.cf_elab_env.specs.Holds.{Known, Grows, IsType};

use crate::binary::moves::{integer_and_pointer, pointer_and_integer};
use crate::binary::nulls::with_null;
use crate::binary::operators::integer_operator;
use crate::binary::pairs::same_objects;
use crate::binary::void_pointers::{is_void, pointed, void_equality};
use cf_base::Kind;
use cf_elab_arith::{broken, is_void_pointer, kind_at, object_at, on_kinds};
use cf_elab_env::{Env, Stop, Value};
use cf_syntax::BinaryOp;
use cf_types::TyId;

/// Two plain values, by their types (5.6 to 5.13).
#[tactic(auto, using(crate::proofs::BinaryLaws::SortLaws::by_sorts_laws))]
pub(crate) fn by_sorts(
    env: &mut Env,
    at: u32,
    op: BinaryOp,
    x: Value,
    y: Value,
) -> Result<Value, Stop>
    requires x_known { Known env.old.types x }
    requires y_known { Known env.old.types y }
    ensures made { Agrees (shut.by_sorts at op x y env.old) result env.new }
    ensures known { IfOk result (λ v. Known env.new.types v) }
    ensures grows { OnOk result (Grows env.old.types env.new.types) }
{
    match kind_at(env, x.ty()) {
        Some(kind) => {
            let value = integer_left(env, at, op, x, kind, y)?;
            Ok(value)
        }
        None => {
            let value = no_integer_left(env, at, op, x, y)?;
            Ok(value)
        }
    }
}

/// The same where the left one is an integer of this promoted type.
#[tactic(auto, using(crate::proofs::BinaryLaws::SortLaws::integer_left_laws))]
fn integer_left(
    env: &mut Env,
    at: u32,
    op: BinaryOp,
    x: Value,
    kind: Kind,
    y: Value,
) -> Result<Value, Stop>
    requires x_known { Known env.old.types x }
    requires y_known { Known env.old.types y }
    requires integer { sorts.kind_at env.old.types x.type ≡ Some kind }
    ensures made { Agrees (shut.by_sorts at op x y env.old) result env.new }
    ensures known { IfOk result (λ v. Known env.new.types v) }
    ensures grows { OnOk result (Grows env.old.types env.new.types) }
{
    if let Some(right) = kind_at(env, y.ty()) {
        let value = by_kinds(env, at, op, kind, right, x, y)?;
        return Ok(value);
    }
    match object_at(env, y.ty()) {
        Some(element) => {
            let value = integer_and_pointer(env, at, op, x, kind, y, element)?;
            Ok(value)
        }
        None => {
            if is_void(env, y.ty()) {
                return Err(Stop::Broken(broken(18, at)));
            }
            let value = with_null(env, at, op, x, y)?;
            Ok(value)
        }
    }
}

/// The same where the left one is no integer.
#[tactic(auto, using(crate::proofs::BinaryLaws::SortLaws::no_integer_left_laws))]
fn no_integer_left(env: &mut Env, at: u32, op: BinaryOp, x: Value, y: Value) -> Result<Value, Stop>
    requires x_known { Known env.old.types x }
    requires y_known { Known env.old.types y }
    requires no_integer { sorts.kind_at env.old.types x.type ≡ None }
    ensures made { Agrees (shut.by_sorts at op x y env.old) result env.new }
    ensures known { IfOk result (λ v. Known env.new.types v) }
    ensures grows { OnOk result (Grows env.old.types env.new.types) }
{
    match kind_at(env, y.ty()) {
        Some(kind) => {
            let value = integer_right(env, at, op, x, kind, y)?;
            Ok(value)
        }
        None => {
            let value = no_integers(env, at, op, x, y)?;
            Ok(value)
        }
    }
}

/// The same where the right one alone is an integer, of this promoted type.
#[tactic(auto, using(crate::proofs::BinaryLaws::SortLaws::integer_right_laws))]
fn integer_right(
    env: &mut Env,
    at: u32,
    op: BinaryOp,
    x: Value,
    kind: Kind,
    y: Value,
) -> Result<Value, Stop>
    requires x_known { Known env.old.types x }
    requires y_known { Known env.old.types y }
    requires no_integer { sorts.kind_at env.old.types x.type ≡ None }
    requires integer { sorts.kind_at env.old.types y.type ≡ Some kind }
    ensures made { Agrees (shut.by_sorts at op x y env.old) result env.new }
    ensures known { IfOk result (λ v. Known env.new.types v) }
    ensures grows { OnOk result (Grows env.old.types env.new.types) }
{
    match object_at(env, x.ty()) {
        Some(element) => {
            let value = pointer_and_integer(env, at, op, x, element, kind, y)?;
            Ok(value)
        }
        None => {
            if is_void(env, x.ty()) {
                return Err(Stop::Broken(broken(18, at)));
            }
            let value = with_null(env, at, op, x, y)?;
            Ok(value)
        }
    }
}

/// Two integers of these promoted types; an operator that takes none is K18 (5.6 to 5.13).
#[tactic(auto, using(crate::proofs::BinaryLaws::SortLaws::by_kinds_laws))]
fn by_kinds(
    env: &mut Env,
    at: u32,
    op: BinaryOp,
    left: Kind,
    right: Kind,
    x: Value,
    y: Value,
) -> Result<Value, Stop>
    requires x_known { Known env.old.types x }
    requires y_known { Known env.old.types y }
    ensures made { Agrees (shut.by_kinds at op left right x y env.old) result env.new }
    ensures known { IfOk result (λ v. Known env.new.types v) }
    ensures grows { OnOk result (Grows env.old.types env.new.types) }
{
    match integer_operator(op) {
        Some(op) => {
            let value = on_kinds(env, at, op, left, right, x, y)?;
            Ok(value)
        }
        None => Err(Stop::Broken(broken(18, at))),
    }
}

/// Two plain values of which neither is an integer: two pointers, else K18 (5.7, 5.9, 5.10).
#[tactic(auto, using(crate::proofs::BinaryLaws::SortLaws::no_integers_laws))]
fn no_integers(env: &mut Env, at: u32, op: BinaryOp, x: Value, y: Value) -> Result<Value, Stop>
    requires x_known { Known env.old.types x }
    requires y_known { Known env.old.types y }
    ensures made { Agrees (shut.of_two at op x y env.old) result env.new }
    ensures known { IfOk result (λ v. Known env.new.types v) }
    ensures grows { OnOk result (Grows env.old.types env.new.types) }
{
    if let Some(left) = object_at(env, x.ty()) {
        let value = object_left(env, at, op, x, left, y)?;
        return Ok(value);
    }
    if is_void_pointer(env, x.ty()) {
        let value = void_left(env, at, op, x, y)?;
        Ok(value)
    } else {
        Err(Stop::Broken(broken(18, at)))
    }
}

/// A pointer to an object of this type with another value behind it, which is no integer.
#[tactic(auto, using(crate::proofs::BinaryLaws::SortLaws::object_left_laws))]
fn object_left(
    env: &mut Env,
    at: u32,
    op: BinaryOp,
    x: Value,
    left: TyId,
    y: Value,
) -> Result<Value, Stop>
    requires x_known { Known env.old.types x }
    requires y_known { Known env.old.types y }
    requires left_known { IsType env.old.types left }
    requires pointer { sorts.object_at env.old.types x.type ≡ Some left }
    ensures made { Agrees (shut.of_two at op x y env.old) result env.new }
    ensures known { IfOk result (λ v. Known env.new.types v) }
    ensures grows { OnOk result (Grows env.old.types env.new.types) }
{
    if let Some(right) = object_at(env, y.ty()) {
        let value = same_objects(env, at, op, x, y, left, right)?;
        return Ok(value);
    }
    if is_void_pointer(env, y.ty()) {
        let void = pointed(env, y.ty());
        let value = void_equality(env, at, op, x, y, void, left)?;
        Ok(value)
    } else {
        Err(Stop::Broken(broken(18, at)))
    }
}

/// A pointer to `void` with another value behind it, which is no integer.
#[tactic(auto, using(crate::proofs::BinaryLaws::SortLaws::void_left_laws))]
fn void_left(env: &mut Env, at: u32, op: BinaryOp, x: Value, y: Value) -> Result<Value, Stop>
    requires x_known { Known env.old.types x }
    requires y_known { Known env.old.types y }
    requires pointer { sorts.void_at env.old.types x.type ≡ true }
    ensures made { Agrees (shut.of_two at op x y env.old) result env.new }
    ensures known { IfOk result (λ v. Known env.new.types v) }
    ensures grows { OnOk result (Grows env.old.types env.new.types) }
{
    let void = pointed(env, x.ty());
    if let Some(right) = object_at(env, y.ty()) {
        let value = void_equality(env, at, op, x, y, void, right)?;
        return Ok(value);
    }
    if is_void_pointer(env, y.ty()) {
        let other = pointed(env, y.ty());
        let value = void_equality(env, at, op, x, y, void, other)?;
        Ok(value)
    } else {
        Err(Stop::Broken(broken(18, at)))
    }
}
