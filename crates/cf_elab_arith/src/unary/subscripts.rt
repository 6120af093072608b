ghost use Rattle.std.specs.Prelude.{◌≡◌, None, Some, IfOk, OnOk};
ghost use Rattle.cf_elab_arith.specs.Arith.Sorts as sorts;
ghost use Rattle.cf_elab_env.specs.Answered.{Agrees};
ghost use Rattle.cf_elab_env.specs.Holds.{Known, Grows, IsType};
ghost use Rattle.cf_elab_arith.specs.Unary.Shut as shut;

use crate::arith::{broken, kind_at, object_at, plain, to_kind};
use crate::unary::pointers::{check_complete, stays_fixed};
use cf_base::{Boxed, Kind};
use cf_core::Core;
use cf_elab_env::{Env, Stop, Value};
use cf_types::TyId;

/// `x[y]`: of a pointer to an object and an integer, in either order, else K18; the object is complete, else K30 (5.2.1).
#[tactic(auto, using(crate::proofs::UnaryLaws::SubscriptLaws::subscript_laws))]
pub fn subscript(env: &mut Env, at: u32, x: Value, y: Value) -> Result<Value, Stop>
    requires x_known { Known env.old.types x }
    requires y_known { Known env.old.types y }
    ensures made { Agrees (shut.subscript at x y env.old) result env.new }
    ensures known { IfOk result (λ v. Known env.new.types v) }
    ensures grows { OnOk result (Grows env.old.types env.new.types) }
{
    let left = plain(env, x)?;
    let right = plain(env, y)?;
    match object_at(env, left.ty()) {
        Some(element) => {
            let place = pointer_left(env, at, element, left, right)?;
            Ok(place)
        }
        None => {
            let place = pointer_right(env, at, left, right)?;
            Ok(place)
        }
    }
}

/// Of two plain values, where the left one is a pointer to an object of this type.
#[tactic(auto, using(crate::proofs::UnaryLaws::SubscriptLaws::left_laws))]
fn pointer_left(env: &mut Env, at: u32, element: TyId, x: Value, y: Value) -> Result<Value, Stop>
    requires x_known { Known env.old.types x }
    requires y_known { Known env.old.types y }
    requires element_known { IsType env.old.types element }
    requires pointer { sorts.object_at env.old.types x.type ≡ Some element }
    ensures made { Agrees (shut.indexed at x y env.old) result env.new }
    ensures known { IfOk result (λ v. Known env.new.types v) }
    ensures grows { OnOk result (Grows env.old.types env.new.types) }
{
    match kind_at(env, y.ty()) {
        Some(kind) => {
            let place = pointer_first(env, at, element, x, kind, y)?;
            Ok(place)
        }
        None => Err(Stop::Broken(broken(18, at))),
    }
}

/// Of two plain values, where the left one is no pointer to an object.
#[tactic(auto, using(crate::proofs::UnaryLaws::SubscriptLaws::right_laws))]
fn pointer_right(env: &mut Env, at: u32, x: Value, y: Value) -> Result<Value, Stop>
    requires x_known { Known env.old.types x }
    requires y_known { Known env.old.types y }
    requires no_pointer { sorts.object_at env.old.types x.type ≡ None }
    ensures made { Agrees (shut.indexed at x y env.old) result env.new }
    ensures known { IfOk result (λ v. Known env.new.types v) }
    ensures grows { OnOk result (Grows env.old.types env.new.types) }
{
    match object_at(env, y.ty()) {
        Some(element) => {
            let place = integer_left(env, at, element, x, y)?;
            Ok(place)
        }
        None => Err(Stop::Broken(broken(18, at))),
    }
}

/// Of two plain values, where the right one alone is a pointer to an object, of this type.
#[tactic(auto, using(crate::proofs::UnaryLaws::SubscriptLaws::integer_laws))]
fn integer_left(env: &mut Env, at: u32, element: TyId, x: Value, y: Value) -> Result<Value, Stop>
    requires x_known { Known env.old.types x }
    requires y_known { Known env.old.types y }
    requires element_known { IsType env.old.types element }
    requires no_pointer { sorts.object_at env.old.types x.type ≡ None }
    requires pointer { sorts.object_at env.old.types y.type ≡ Some element }
    ensures made { Agrees (shut.indexed at x y env.old) result env.new }
    ensures known { IfOk result (λ v. Known env.new.types v) }
    ensures grows { OnOk result (Grows env.old.types env.new.types) }
{
    match kind_at(env, x.ty()) {
        Some(kind) => {
            let place = integer_first(env, at, element, kind, x, y)?;
            Ok(place)
        }
        None => Err(Stop::Broken(broken(18, at))),
    }
}

/// A pointer to an object of this type with an integer of this promoted type behind it.
#[tactic(auto, using(crate::proofs::UnaryLaws::SubscriptLaws::pointer_first_laws))]
fn pointer_first(
    env: &mut Env,
    at: u32,
    element: TyId,
    pointer: Value,
    kind: Kind,
    integer: Value,
) -> Result<Value, Stop>
    requires integer_known { Known env.old.types integer }
    requires element_known { IsType env.old.types element }
    ensures made { Agrees (shut.pointer_first at element pointer kind integer env.old) result env.new }
    ensures known { IfOk result (λ v. Known env.new.types v) }
    ensures grows { OnOk result (Grows env.old.types env.new.types) }
{
    let index = to_kind(env, kind, integer)?;
    let is_fixed = stays_fixed(&pointer, &index);
    let place = element_of(env, at, element, is_fixed, pointer, index)?;
    Ok(place)
}

/// An integer of this promoted type with a pointer to an object of this type behind it.
#[tactic(auto, using(crate::proofs::UnaryLaws::SubscriptLaws::integer_first_laws))]
fn integer_first(
    env: &mut Env,
    at: u32,
    element: TyId,
    kind: Kind,
    integer: Value,
    pointer: Value,
) -> Result<Value, Stop>
    requires integer_known { Known env.old.types integer }
    requires element_known { IsType env.old.types element }
    ensures made { Agrees (shut.integer_first at element kind integer pointer env.old) result env.new }
    ensures known { IfOk result (λ v. Known env.new.types v) }
    ensures grows { OnOk result (Grows env.old.types env.new.types) }
{
    let index = to_kind(env, kind, integer)?;
    let is_fixed = stays_fixed(&pointer, &index);
    let place = element_of(env, at, element, is_fixed, index, pointer)?;
    Ok(place)
}

/// The element of this type at an index; the type is complete, else K30.
#[tactic(auto, using(crate::proofs::UnaryLaws::SubscriptLaws::element_laws))]
fn element_of(
    env: &Env,
    at: u32,
    element: TyId,
    is_fixed: bool,
    left: Value,
    right: Value,
) -> Result<Value, Stop>
    requires { IsType env.now.types element }
    ensures made { Agrees (shut.element_of at element is_fixed left right env.now) result env.now }
    ensures known { IfOk result (λ v. Known env.now.types v) }
{
    check_complete(env, at, element)?;
    let node = Boxed::new(
        env.alloc(),
        Core::Index {
            at,
            left: left.into_node(),
            right: right.into_node(),
        },
    )?;
    Ok(Value::place(at, node, element, is_fixed))
}
