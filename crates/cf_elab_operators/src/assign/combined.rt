ghost use Rattle.std.specs.Prelude.{◌≡◌, None, IfOk, OnOk};
ghost use Rattle.cf_elab_arith.specs.Arith.Sorts as sorts;
ghost use Rattle.cf_elab_operators.specs.Assign.Shut as shut;
ghost use Rattle.cf_elab_env.specs.Answered.{Agrees};
ghost use Rattle.cf_elab_env.specs.Holds.{Known, Grows, IsType};

use crate::assign::operators::{binary_of, moves};
use crate::assign::updated::{moved, of_integer};
use crate::binary::operation;
use cf_base::{Arith, Kind};
use cf_elab_arith::{broken, integral_at, kind_at, object_at};
use cf_elab_env::{Env, Stop, Value};
use cf_elab_fit::fit;
use cf_types::TyId;

/// A place that may be changed with a plain value, by their types. No value but an integer is combined.
#[tactic(auto, using(crate::proofs::AssignLaws::CombinedLaws::combined_laws))]
pub(crate) fn combined(
    env: &mut Env,
    at: u32,
    op: Arith,
    place: Value,
    value: Value,
) -> Result<Value, Stop>
    requires place_known { Known env.old.types place }
    requires value_known { Known env.old.types value }
    ensures made { Agrees (shut.combined at op place value env.old) result env.new }
    ensures known { IfOk result (λ v. Known env.new.types v) }
    ensures grows { OnOk result (Grows env.old.types env.new.types) }
{
    match kind_at(env, value.ty()) {
        Some(kind) => {
            let updated = by_place(env, at, op, place, value, kind)?;
            Ok(updated)
        }
        None => {
            let never = not_combined(env, at, op, place, value)?;
            Ok(never)
        }
    }
}

/// A place with a value of this promoted type, by the type of the place.
#[tactic(auto, using(crate::proofs::AssignLaws::CombinedLaws::by_place_laws))]
fn by_place(
    env: &mut Env,
    at: u32,
    op: Arith,
    place: Value,
    value: Value,
    kind: Kind,
) -> Result<Value, Stop>
    requires place_known { Known env.old.types place }
    requires value_known { Known env.old.types value }
    ensures made { Agrees (shut.by_place at op place value kind env.old) result env.new }
    ensures known { IfOk result (λ v. Known env.new.types v) }
    ensures grows { OnOk result (Grows env.old.types env.new.types) }
{
    match integral_at(env, place.ty()) {
        Some(to) => {
            let updated = of_integer(env, at, op, place, to, value, kind)?;
            Ok(updated)
        }
        None => {
            let updated = no_integer(env, at, op, place, value, kind)?;
            Ok(updated)
        }
    }
}

/// The same where the place has no integer type: a pointer to an object is moved, and nothing else is combined.
#[tactic(auto, using(crate::proofs::AssignLaws::CombinedLaws::no_integer_laws))]
fn no_integer(
    env: &mut Env,
    at: u32,
    op: Arith,
    place: Value,
    value: Value,
    kind: Kind,
) -> Result<Value, Stop>
    requires place_known { Known env.old.types place }
    requires value_known { Known env.old.types value }
    requires no_integer { sorts.integral_at env.old.types place.type ≡ None }
    ensures made { Agrees (shut.by_place at op place value kind env.old) result env.new }
    ensures known { IfOk result (λ v. Known env.new.types v) }
    ensures grows { OnOk result (Grows env.old.types env.new.types) }
{
    match object_at(env, place.ty()) {
        Some(element) => {
            let updated = of_pointer(env, at, op, place, element, value, kind)?;
            Ok(updated)
        }
        None => {
            let never = not_combined(env, at, op, place, value)?;
            Ok(never)
        }
    }
}

/// A pointer to an object of this type: moved by `+=` and `-=`, and K18 by any other operator.
#[tactic(auto, using(crate::proofs::AssignLaws::CombinedLaws::of_pointer_laws))]
fn of_pointer(
    env: &mut Env,
    at: u32,
    op: Arith,
    place: Value,
    element: TyId,
    value: Value,
    kind: Kind,
) -> Result<Value, Stop>
    requires place_known { Known env.old.types place }
    requires element_known { IsType env.old.types element }
    requires value_known { Known env.old.types value }
    ensures made { Agrees (shut.of_pointer at op place element value kind env.old) result env.new }
    ensures known { IfOk result (λ v. Known env.new.types v) }
    ensures grows { OnOk result (Grows env.old.types env.new.types) }
{
    match moves(op) {
        Some(back) => {
            let updated = moved(env, at, back, place, element, value, kind)?;
            Ok(updated)
        }
        None => Err(Stop::Broken(broken(18, at))),
    }
}

/// Of these types the binary operator takes none, or its result is not converted back to the type of the place: K13, K25.
#[tactic(auto, using(crate::proofs::AssignLaws::CombinedLaws::not_combined_laws))]
fn not_combined(
    env: &mut Env,
    at: u32,
    op: Arith,
    place: Value,
    value: Value,
) -> Result<Value, Stop>
    requires place_known { Known env.old.types place }
    requires value_known { Known env.old.types value }
    ensures made { Agrees (shut.not_combined at op place value env.old) result env.new }
    ensures known { IfOk result (λ v. Known env.new.types v) }
    ensures grows { OnOk result (Grows env.old.types env.new.types) }
{
    let ty = place.ty();
    let combined = operation(env, at, binary_of(op), place, value)?;
    fit(env, at, combined, ty)?;
    Err(Stop::Broken(broken(18, at)))
}
