ghost use Rattle.std.specs.Prelude.{◌≡◌, Some, IfOk, OnOk, IsTrue, true};
ghost use Rattle.std.specs.List.{list_all};
ghost use Rattle.cf_base.specs.Integers.{fits};
ghost use Rattle.cf_convert.specs.Converts as converts;
ghost use Rattle.cf_elab.specs.Answer.{Made};
ghost use Rattle.cf_elab.specs.Operand as operand;
ghost use Rattle.cf_elab.specs.Operand.{val, defs};
ghost use Rattle.cf_elab_env.specs.Holds.{Known, Grows, IsType, fits_sort};
ghost use Rattle.cf_elab_env.specs.Seen.{sort_seen};
ghost use Rattle.cf_elab_fit.specs.Shut as shut;
ghost use Rattle.cf_elab_fit.specs.Steps as spec;

use crate::step::all_steps;
use cf_base::{Items, Kind, Memory};
use cf_convert::{Conv, ConvStep, Val, standard};
use cf_elab_env::{Env, Sort, Value};
use cf_types::{TyId, convert_int};

/// The steps of the conversion of a value to a type without a user's function, if there is one (4, 13.2).
#[tactic(auto, using(crate::proofs::Converted::found_steps, crate::proofs::Converted::no_steps))]
pub fn steps(env: &Env, value: &Value, to: TyId) -> Result<Option<Items<ConvStep>>, Memory>
    requires known { Known env.now.types value.now }
    requires to_known { IsType env.now.types to }
    ensures { IfOk result (λ found. found ≡ converts.steps env.now.types (defs env.now) (val value.now) to) }
{
    let from = Val {
        ty: value.ty(),
        lvalue: value.is_lvalue(),
        zero: is_zero(value.number()),
    };
    match standard(env.alloc(), env.types(), env.classes(), &from, to)? {
        Some(conv) => {
            let Conv { steps, .. } = conv;
            Ok(Some(steps))
        }
        None => Ok(None),
    }
}

/// Whether a number is known to be 0.
fn is_zero(number: Option<i64>) -> bool
    ensures { result ≡ operand.is_zero number }
{
    match number {
        Some(value) => is_zero_number(value),
        None => false,
    }
}

#[tactic(auto, using(crate::proofs::Converted::not_zero))]
fn is_zero_number(value: i64) -> bool
    ensures { result ≡ operand.is_zero (Some value) }
{
    if value == 0 { true } else { false }
}

/// A value converted by the steps of its conversion to this type.
#[tactic(auto, using(crate::proofs::Stepped::converted_by, crate::proofs::FitLaws::known_by_sort, cf_elab_env::proofs::Growth::grown_laws))]
pub fn convert(
    env: &mut Env,
    at: u32,
    to: TyId,
    steps: Items<ConvStep>,
    value: Value,
) -> Result<Value, Memory>
    requires known { Known env.old.types value }
    requires to_known { IsType env.old.types to }
    requires steps { converts.steps env.old.types (defs env.old) (val value) to ≡ Some steps }
    ensures made { IfOk result (λ v. shut.converted at to steps value env.old ≡ Made v env.new) }
    ensures wanted { IfOk result (λ v. v.type ≡ to) }
    ensures known { IfOk result (λ v. Known env.new.types v) }
    ensures grows { OnOk result (Grows env.old.types env.new.types) }
{
    let _place = at;
    stay_in_class(steps.as_slice())?;
    let last = all_steps(env, to, steps.as_slice(), value)?;
    check_number(env.sort_of(to), last.number())?;
    Ok(last)
}

/// So far no class is defined, and no step goes to a base.
fn stay_in_class(steps: &[ConvStep]) -> Result<(), Memory>
    ensures { OnOk result (list_all spec.stays_in_class steps.now ≡ true) }
{
    if all_stay(steps) { Ok(()) } else { Err(Memory) }
}

fn all_stay(steps: &[ConvStep]) -> bool
    ensures { result ≡ list_all spec.stays_in_class steps.now }
{
    steps.iter().all(|step| stays_in_class(step))
}

fn stays_in_class(step: &ConvStep) -> bool
    ensures { result ≡ spec.stays_in_class step.now }
{
    !matches!(step, ConvStep::ToBase(_) | ConvStep::ToMember(_))
}

/// A conversion to an integer type or an enumeration gives a number of that type.
fn check_number(sort: Sort, number: Option<i64>) -> Result<(), Memory>
    ensures { OnOk result (spec.FitsAs (sort_seen sort) number) }
{
    match number {
        None => Ok(()),
        Some(value) => check_value(sort, value),
    }
}

fn check_value(sort: Sort, value: i64) -> Result<(), Memory>
    ensures { OnOk result (IsTrue (fits_sort (sort_seen sort) value)) }
{
    match sort {
        Sort::Integral(kind) => check_kind(kind, value),
        Sort::Enumeral(_) => check_kind(Kind::Int, value),
        _ => Ok(()),
    }
}

#[tactic(auto, using(crate::proofs::FitLaws::fits_same))]
fn check_kind(kind: Kind, value: i64) -> Result<(), Memory>
    ensures { OnOk result (IsTrue (fits kind value)) }
{
    if convert_int(value, kind) == value {
        Ok(())
    } else {
        Err(Memory)
    }
}
